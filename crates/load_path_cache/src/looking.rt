//! Looks at the folders of a root.
ghost use Rattle.std.specs.Prelude.{◌≡◌, ◌∷◌, ◌++◌, ◌≤◌, [], max, IfOk, IfSome, OnOk, OnErr, IsErrOf};
ghost use Rattle.std.specs.FinMap as finite;
ghost use Rattle.bs_outside.specs.SourceTree.{stem_of};
ghost use Rattle.bs_outside.specs.Told.{added, Rose, AddsPrefix};
ghost use Rattle.path_meaning.specs.Scan.{folder_time, latest_of, folder_paths};

use bs_outside::{Kind, NoMemory, Text, Tree, TreeFault};
use std::alloc::Global;

/// The time of the folder at the path, or nothing where no folder stands there.
fn folder_time<T: Tree>(alloc: Global, tree: &mut T, path: &Text) -> Result<Option<u64>, TreeFault>
    ensures time { IfOk result (λ time. IfSome (T.contents tree.old) (λ m. time ≡ folder_time (finite.get m path.now))) }
    ensures contents { T.contents tree.new ≡ T.contents tree.old }
    ensures asked { OnOk result (T.stats tree.new ≡ added (T.stats tree.old) (path.now ∷ [])) }
    ensures err { OnErr result (T.stats tree.new ≡ T.stats tree.old) }
    ensures reads { T.reads tree.new ≡ T.reads tree.old }
    ensures listings { T.listings tree.new ≡ T.listings tree.old }
    ensures counted { T.faults tree.old ≤ T.faults tree.new }
    ensures failed { IsErrOf result TreeFault.Failed → Rose (T.faults tree.old) (T.faults tree.new) }
{
    match tree.stat(alloc, path)? {
        Some(stat) => match stat.kind {
            Kind::File => Ok(None),
            Kind::Dir => Ok(Some(stat.mtime)),
        },
        None => Ok(None),
    }
}

/// The path of what lies below a folder, by its path relative to that.
pub(crate) fn path_below(alloc: Global, folder: &Text, relative: &Text) -> Result<Text, NoMemory>
    ensures { IfOk result (λ path. path ≡ stem_of folder.now ++ relative.now) }
{
    let mut path = Vec::from_slice(alloc, folder.as_slice())?;
    if folder.as_slice() != b"/".as_slice() {
        path.push(b'/')?;
    }
    path.extend_from_slice(relative.as_slice())?;
    Ok(Text::from_vec(path))
}

fn later_of(a: u64, b: u64) -> u64
    ensures { result ≡ max a b }
{
    if a < b { b } else { a }
}

/// The greatest time of the root and of these folders below it, or nothing where one of them is no folder. Each is looked at once at the most.
pub(crate) fn latest_time<T: Tree>(
    alloc: Global,
    tree: &mut T,
    root: &Text,
    dirs: &[Text],
) -> Result<Option<u64>, TreeFault>
    ensures time { IfOk result (λ time. IfSome (T.contents tree.old) (λ m. time ≡ latest_of m root.now dirs.now)) }
    ensures contents { T.contents tree.new ≡ T.contents tree.old }
    ensures looked { AddsPrefix (T.stats tree.old) (T.stats tree.new) (folder_paths root.now dirs.now) }
    ensures reads { T.reads tree.new ≡ T.reads tree.old }
    ensures listings { T.listings tree.new ≡ T.listings tree.old }
    ensures counted { T.faults tree.old ≤ T.faults tree.new }
    ensures failed { IsErrOf result TreeFault.Failed → Rose (T.faults tree.old) (T.faults tree.new) }
{
    let Some(mut latest) = folder_time(alloc, tree, root)? else {
        return Ok(None);
    };
    for dir in dirs {
        let path = path_below(alloc, root, dir)?;
        let Some(time) = folder_time(alloc, tree, &path)? else {
            return Ok(None);
        };
        latest = later_of(latest, time);
    }
    Ok(Some(latest))
}

//! A tree of source files and folders.
ghost use Rattle.std.specs.Prelude.{◌≡◌, ◌+◌, ◌<◌, ◌≤◌, ◌^◌, ◌∷◌, ◌++◌, [], true, ℕ, List, Option, IfOk, OnOk, OnErr, IfSome, IsErrOf};
ghost use Rattle.std.specs.List.{All};
ghost use Rattle.bs_outside.specs.Told.{added, Rose};
ghost use Rattle.bs_outside.specs.Paths.{is_segment};
ghost use Rattle.bs_outside.specs.SourceTree.{SourceTree, stat_at, list_at, bytes_at};

use crate::{Bytes, Items, Text, TreeFault};
use std::alloc::Global;

/// What stands at a path.
#[derive(Drop, Debug, Clone, Copy, PartialEq, Eq)]
pub enum Kind {
    File,
    Dir,
}

/// What a stat tells. The size of a file is the number of its bytes, that of a folder is 0. The time of its last change is in seconds.
#[derive(Drop, Debug, Clone, Copy, PartialEq, Eq)]
pub struct Stat {
    pub kind: Kind,
    pub size: u64,
    pub mtime: u64,
}

/// A name in a folder.
#[derive(Drop, Debug)]
pub struct Listed {
    pub name: Text,
    pub kind: Kind,
}

/// The names in a folder, which contracts see as a list.
pub type Listing = Items<Listed>;

/// A file with its bytes and its time, or a folder with its time.
#[derive(Drop, Debug)]
pub enum Item {
    File(Bytes, u64),
    Dir(u64),
}

/// Files and folders, by their paths. No call changes them.
pub trait Tree {
    /// What stands at each path, where the object tells it.
    ghost contents: { Self → Option SourceTree };

    /// The paths of the stats so far that were answered.
    ghost stats: { Self → Option (List (List ℕ)) };

    /// The paths of the listings so far that were answered.
    ghost listings: { Self → Option (List (List ℕ)) };

    /// The paths of the reads so far that were answered.
    ghost reads: { Self → Option (List (List ℕ)) };

    /// How many calls failed.
    ghost faults: { Self → ℕ };

    /// What stands at the path, or nothing where nothing does.
    fn stat(&mut self, alloc: Global, path: &Text) -> Result<Option<Stat>, TreeFault>
        ensures answer { IfOk result (λ found. IfSome (contents self.old) (λ tree. found ≡ stat_at tree path.now)) }
        ensures time { IfOk result (λ found. IfSome found (λ stat. stat.mtime < 2 ^ 63)) }
        ensures contents { contents self.new ≡ contents self.old }
        ensures asked { OnOk result (stats self.new ≡ added (stats self.old) (path.now ∷ [])) }
        ensures err { OnErr result (stats self.new ≡ stats self.old) }
        ensures listings { listings self.new ≡ listings self.old }
        ensures reads { reads self.new ≡ reads self.old }
        ensures counted { faults self.old ≤ faults self.new }
        ensures failed { IsErrOf result TreeFault.Failed → Rose (faults self.old) (faults self.new) };

    /// The names in the folder at the path, each once, ascending by their bytes, or nothing where no folder stands there.
    fn list(&mut self, alloc: Global, path: &Text) -> Result<Option<Listing>, TreeFault>
        ensures answer { IfOk result (λ found. IfSome (contents self.old) (λ tree. found ≡ list_at tree path.now)) }
        ensures names { IfOk result (λ found. IfSome found (λ names. All (λ listed. is_segment listed.name ≡ true) names)) }
        ensures contents { contents self.new ≡ contents self.old }
        ensures asked { OnOk result (listings self.new ≡ added (listings self.old) (path.now ∷ [])) }
        ensures err { OnErr result (listings self.new ≡ listings self.old) }
        ensures stats { stats self.new ≡ stats self.old }
        ensures reads { reads self.new ≡ reads self.old }
        ensures counted { faults self.old ≤ faults self.new }
        ensures failed { IsErrOf result TreeFault.Failed → Rose (faults self.old) (faults self.new) };

    /// The bytes of the file at the path, or nothing where no file stands there.
    fn read(&mut self, alloc: Global, path: &Text) -> Result<Option<Bytes>, TreeFault>
        ensures answer { IfOk result (λ found. IfSome (contents self.old) (λ tree. found ≡ bytes_at tree path.now)) }
        ensures contents { contents self.new ≡ contents self.old }
        ensures asked { OnOk result (reads self.new ≡ added (reads self.old) (path.now ∷ [])) }
        ensures err { OnErr result (reads self.new ≡ reads self.old) }
        ensures stats { stats self.new ≡ stats self.old }
        ensures listings { listings self.new ≡ listings self.old }
        ensures counted { faults self.old ≤ faults self.new }
        ensures failed { IsErrOf result TreeFault.Failed → Rose (faults self.old) (faults self.new) };
}

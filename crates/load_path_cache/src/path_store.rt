//! The store of the load path's scans.
ghost use Rattle.std.specs.Prelude.{◌≡◌, ◌<◌, IfOk, IfSome, OnOk, OnErr, IsErrOf, true, ◌≤◌};
ghost use Rattle.std.specs.Option.{option_copied};
ghost use Rattle.std.specs.FinMap as finite;
ghost use Rattle.bs_outside.specs.Paths.{IsNormalPath};
ghost use Rattle.bs_outside.specs.Told.{Rose, AddsPrefix};
ghost use Rattle.path_meaning.specs.StoreFile.{IsStoreEntry, CanBeKept, few_names, as_item, may_keep, store_with, is_latest, is_valid_item, paths_of_item};
ghost use Rattle.load_path_cache.specs.Kept.{IsShort};

use crate::looking::latest_time;
use bs_outside::{Items, NoMemory, Text, Texts, Tree, TreeFault};
use path_meaning::RootScan;
use std::alloc::Global;
use std::collections::BTreeMap;
use std::marker::Model;

/// The most names of a scan that is kept.
const MOST_NAMES: usize = 1_048_576;

/// So many other roots with items leave no room for one more.
const MOST_ROOTS: usize = 16_777_216;

/// The kept scans of roots. Contracts see the finite map from roots to items.
#[derive(Drop, Debug)]
pub struct PathStore {
    items: BTreeMap<Text, RootScan>,
}

impl Model for PathStore {
    ghost use Rattle.std.specs.FinMap as finite;
    ghost use Rattle.std.specs.Coded.{coded_ℕ, coded_list};
    ghost use Rattle.path_meaning.specs.contracts.scans.RootScan as scan;
    ghost use Rattle.path_meaning.specs.StoreFile.{Store};
    ghost use Rattle.load_path_cache.specs.Kept.{HoldsStore};

    ghost Value = { Store };

    ghost coded = { finite.code (coded_list coded_ℕ) scan.the_row.coded };

    ghost view = { λ a. finite.from_sorted a.items.entries };

    ghost invariant = { λ a. HoldsStore a.items.entries };
}

impl PathStore {
    /// No items.
    pub fn empty(alloc: Global) -> PathStore
        ensures { result ≡ finite.empty }
    {
        PathStore {
            items: BTreeMap::new(alloc),
        }
    }

    /// The root's item, whose time is missing where none is kept.
    pub fn kept(&self, root: &Text) -> Option<&RootScan>
        ensures { option_copied result ≡ finite.get self.now root.now }
    {
        self.items.get(root)
    }

    /// Whether what is kept of the root may stand for its scan now. Of a stable root this is so exactly where an item without a time is kept, and nothing is looked at. Of
    /// another it is so where the root and the kept folders are folders, and their greatest time is the one that is kept.
    pub fn valid<T: Tree>(
        &self,
        alloc: Global,
        tree: &mut T,
        root: &Text,
        stable: bool,
    ) -> Result<bool, TreeFault>
        ensures answer { IfOk result (λ valid. IfSome (T.contents tree.old) (λ m. valid ≡ is_valid_item m root.now stable (finite.get self.now root.now))) }
        ensures contents { T.contents tree.new ≡ T.contents tree.old }
        ensures looked { AddsPrefix (T.stats tree.old) (T.stats tree.new) (paths_of_item root.now (finite.get self.now root.now)) }
        ensures stable { stable ≡ true → T.stats tree.new ≡ T.stats tree.old }
        ensures reads { T.reads tree.new ≡ T.reads tree.old }
        ensures listings { T.listings tree.new ≡ T.listings tree.old }
        ensures counted { T.faults tree.old ≤ T.faults tree.new }
        ensures failed { IsErrOf result TreeFault.Failed → Rose (T.faults tree.old) (T.faults tree.new) }
    {
        let Some(item) = self.kept(root) else {
            return Ok(false);
        };
        if stable {
            return Ok(item.latest.is_none());
        }
        let latest = latest_time(alloc, tree, root, item.dirs.as_slice())?;
        Ok(is_latest(item.latest, latest))
    }

    /// Keeps a scan of a root, without its time where the root is stable. The root has no item afterwards where the scan's time is
    /// missing, the scan has more than 1,048,576 names, or 16,777,216 or more other roots have items. The items of other roots stay.
    /// Short of memory, nothing changes.
    pub fn put(
        &mut self,
        alloc: Global,
        root: &Text,
        scan: &RootScan,
        stable: bool,
    ) -> Result<(), NoMemory>
        requires root { IsNormalPath root.now }
        requires scan { CanBeKept scan.now }
        ensures ok { OnOk result (self.new ≡ store_with self.old root.now scan.now stable) }
        ensures err { OnErr result (self.new ≡ self.old) }
    {
        if !self.may_keep(root, scan) {
            self.remove(root);
            return Ok(());
        }
        let item = item_of(alloc, scan, stable)?;
        let path = root.copy(alloc)?;
        self.insert(path, item)?;
        Ok(())
    }

    /// Whether a scan of the root can be kept.
    fn may_keep(&self, root: &Text, scan: &RootScan) -> bool
        ensures { result ≡ may_keep self.now root.now scan.now }
    {
        scan.latest.is_some() && has_few_names(scan) && self.others(root) < MOST_ROOTS
    }

    /// How many other roots have items.
    fn others(&self, root: &Text) -> usize
        ensures { result ≡ finite.len (finite.remove self.now root.now) }
    {
        let count = self.items.len();
        if self.items.contains_key(root) {
            count - 1
        } else {
            count
        }
    }

    /// Takes the root's item out.
    fn remove(&mut self, root: &Text)
        ensures { self.new ≡ finite.remove self.old root.now }
    {
        self.items.remove(root);
    }

    /// Gives the root this item.
    fn insert(&mut self, root: Text, item: RootScan) -> Result<(), NoMemory>
        requires entry { IsStoreEntry (root, item) }
        requires short { IsShort item }
        requires few { finite.len (finite.remove self.old root) < 16777216 }
        ensures ok { OnOk result (self.new ≡ finite.insert self.old root item) }
        ensures err { OnErr result (self.new ≡ self.old) }
    {
        self.items.insert(root, item)?;
        Ok(())
    }
}

/// Whether both times are there and are one.
fn is_latest(kept: Option<u64>, latest: Option<u64>) -> bool
    ensures { result ≡ is_latest kept latest }
{
    match (kept, latest) {
        (Some(kept), Some(latest)) => kept <= latest && latest <= kept,
        _ => false,
    }
}

fn has_few_names(scan: &RootScan) -> bool
    ensures { result ≡ few_names scan.now }
{
    let files = scan.files.len();
    files <= MOST_NAMES && scan.dirs.len() <= MOST_NAMES - files
}

/// A copy of the scan, without its time where the root is stable.
fn item_of(alloc: Global, scan: &RootScan, stable: bool) -> Result<RootScan, NoMemory>
    ensures { IfOk result (λ item. item ≡ as_item scan.now stable) }
{
    Ok(RootScan {
        latest: if stable { None } else { scan.latest },
        files: copy_of(alloc, scan.files.as_slice())?,
        dirs: copy_of(alloc, scan.dirs.as_slice())?,
    })
}

fn copy_of(alloc: Global, texts: &[Text]) -> Result<Texts, NoMemory>
    ensures { IfOk result (λ copies. copies ≡ texts.now) }
{
    let mut copies = Items::new(alloc);
    for text in texts {
        copies.push(text.copy(alloc)?)?;
    }
    Ok(copies)
}

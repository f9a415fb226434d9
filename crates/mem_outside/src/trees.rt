//! Trees of files in memory.
ghost use Rattle.std.specs.Prelude.{◌≡◌, ◌+◌, ◌<◌, ◌≤◌, ◌^◌, ◌↔◌, ◌∷◌, ◌++◌, [], true, Some, is_some, IfOk, OnOk, OnErr, IfSome, IsErrOf};
ghost use Rattle.std.specs.List.{All};
ghost use Rattle.bs_outside.specs.Told.{added, Rose};
ghost use Rattle.std.specs.FinMap as map;
ghost use Rattle.bs_outside.specs.Paths.{is_segment};
ghost use Rattle.bs_outside.specs.SourceTree.{stat_at, list_at, bytes_at, IsSourceTree};
ghost use Rattle.mem_outside.specs.TreeLists.{map_of, is_tree_list};
ghost use Rattle.mem_shelf.specs.Schedule.{called, fails_next, faults_of};

use crate::Files;
use bs_outside::{Bytes, Item, Items, Listing, NoMemory, Stat, Text, Texts, Tree, TreeFault};
use mem_shelf::Script;
use std::alloc::Global;
use std::marker::Model;

/// Puts a copy of the path at the end of the list.
fn note(alloc: Global, paths: &mut Texts, path: &Text) -> Result<(), NoMemory>
    ensures ok { OnOk result (paths.new ≡ paths.old ++ path.now ∷ []) }
    ensures err { OnErr result (paths.new ≡ paths.old) }
{
    let copy = path.copy(alloc)?;
    paths.push(copy)
}

/// A tree whose calls do not fail.
#[derive(Drop, Debug)]
pub struct SureTree {
    files: Files,
    stats: Texts,
    listings: Texts,
    reads: Texts,
}

impl SureTree {
    /// The tree of this list, or nothing where it is not the list of a source tree.
    pub fn new(alloc: Global, items: Vec<(Text, Item)>) -> Result<Option<SureTree>, NoMemory>
        ensures made { IfOk result (λ made. is_some made ≡ is_tree_list items.items) }
        ensures tree { IfOk result (λ made. IfSome made (λ tree. IsSourceTree tree.files)) }
        ensures told { IfOk result (λ made. IfSome made (λ tree. tree ≡ record {
          files = map_of items.items;
          stats = [];
          listings = [];
          reads = [];
        })) }
    {
        match Files::from_items(alloc, items)? {
            Some(files) => Ok(Some(SureTree {
                files,
                stats: Items::new(alloc),
                listings: Items::new(alloc),
                reads: Items::new(alloc),
            })),
            None => Ok(None),
        }
    }

    /// The paths of the stats so far that were answered.
    pub fn stats(&self) -> &[Text]
        ensures { result.now ≡ self.now.stats }
    {
        self.stats.as_slice()
    }

    /// The paths of the listings so far that were answered.
    pub fn listings(&self) -> &[Text]
        ensures { result.now ≡ self.now.listings }
    {
        self.listings.as_slice()
    }

    /// The paths of the reads so far that were answered.
    pub fn reads(&self) -> &[Text]
        ensures { result.now ≡ self.now.reads }
    {
        self.reads.as_slice()
    }
}

impl Tree for SureTree {
    ghost contents = { λ t. Some t.files };

    ghost stats = { λ t. Some t.stats };

    ghost listings = { λ t. Some t.listings };

    ghost reads = { λ t. Some t.reads };

    ghost faults = { λ t. 0 };

    fn stat(&mut self, alloc: Global, path: &Text) -> Result<Option<Stat>, TreeFault> {
        note(alloc, &mut self.stats, path)?;
        Ok(self.files.stat(path))
    }

    fn list(&mut self, alloc: Global, path: &Text) -> Result<Option<Listing>, TreeFault> {
        let found = self.files.list(alloc, path)?;
        note(alloc, &mut self.listings, path)?;
        Ok(found)
    }

    fn read(&mut self, alloc: Global, path: &Text) -> Result<Option<Bytes>, TreeFault> {
        let found = self.files.read(alloc, path)?;
        note(alloc, &mut self.reads, path)?;
        Ok(found)
    }
}

/// A tree whose calls fail as its script says.
#[derive(Drop, Debug)]
pub struct MemTree {
    sure: SureTree,
    script: Script,
}

impl Model for MemTree {
    ghost use Rattle.mem_outside.specs.TreeTellings.{TreeTelling, telling_code};

    ghost Value = { TreeTelling };

    ghost coded = { telling_code };

    ghost view = { λ a. record { files = a.sure.files; script = a.script; stats = a.sure.stats; listings = a.sure.listings; reads = a.sure.reads } };
}

impl MemTree {
    /// The tree of this list, whose calls with these numbers, counted from 1, fail, or nothing where it is not the list of a source
    /// tree: where a path is not normal or stands twice, a time is 2^63 or more, `/` does not stand, or a path lies in no folder of it.
    pub fn new(
        alloc: Global,
        items: Vec<(Text, Item)>,
        fail: Vec<u64>,
    ) -> Result<Option<MemTree>, NoMemory>
        ensures made { IfOk result (λ made. is_some made ≡ is_tree_list items.items) }
        ensures tree { IfOk result (λ made. IfSome made (λ tree. IsSourceTree tree.files)) }
        ensures told { IfOk result (λ made. IfSome made (λ tree. tree ≡ record {
          files = map_of items.items;
          script = record { fail = fail.items; calls = 0 };
          stats = [];
          listings = [];
          reads = [];
        })) }
    {
        match SureTree::new(alloc, items)? {
            Some(sure) => Ok(Some(MemTree {
                sure,
                script: Script::new(fail),
            })),
            None => Ok(None),
        }
    }

    /// The paths of the stats so far that were answered.
    pub fn stats(&self) -> &[Text]
        ensures { result.now ≡ self.now.stats }
    {
        self.sure.stats()
    }

    /// The paths of the listings so far that were answered.
    pub fn listings(&self) -> &[Text]
        ensures { result.now ≡ self.now.listings }
    {
        self.sure.listings()
    }

    /// The paths of the reads so far that were answered.
    pub fn reads(&self) -> &[Text]
        ensures { result.now ≡ self.now.reads }
    {
        self.sure.reads()
    }
}

impl Tree for MemTree {
    ghost contents = { λ t. Some t.files };

    ghost stats = { λ t. Some t.stats };

    ghost listings = { λ t. Some t.listings };

    ghost reads = { λ t. Some t.reads };

    ghost faults = { λ t. faults_of t.script };

    fn stat(&mut self, alloc: Global, path: &Text) -> Result<Option<Stat>, TreeFault>
        ensures answer { IfOk result (λ found. found ≡ stat_at self.old.files path.now) }
        ensures time { IfOk result (λ found. IfSome found (λ stat. stat.mtime < 2 ^ 63)) }
        ensures contents { self.new.files ≡ self.old.files }
        ensures asked { OnOk result (Some self.new.stats ≡ added (Some self.old.stats) (path.now ∷ [])) }
        ensures err { OnErr result (self.new.stats ≡ self.old.stats) }
        ensures listings { self.new.listings ≡ self.old.listings }
        ensures reads { self.new.reads ≡ self.old.reads }
        ensures counted { faults_of self.old.script ≤ faults_of self.new.script }
        ensures failed { IsErrOf result TreeFault.Failed → Rose (faults_of self.old.script) (faults_of self.new.script) }
        ensures exact { IsErrOf result TreeFault.Failed ↔ fails_next self.old.script ≡ true }
        ensures called { self.new.script ≡ called self.old.script }
    {
        if self.script.next_fails() {
            return Err(TreeFault::Failed);
        }
        self.sure.stat(alloc, path)
    }

    fn list(&mut self, alloc: Global, path: &Text) -> Result<Option<Listing>, TreeFault>
        ensures answer { IfOk result (λ found. found ≡ list_at self.old.files path.now) }
        ensures names { IfOk result (λ found. IfSome found (λ names. All (λ listed. is_segment listed.name ≡ true) names)) }
        ensures contents { self.new.files ≡ self.old.files }
        ensures asked { OnOk result (Some self.new.listings ≡ added (Some self.old.listings) (path.now ∷ [])) }
        ensures err { OnErr result (self.new.listings ≡ self.old.listings) }
        ensures stats { self.new.stats ≡ self.old.stats }
        ensures reads { self.new.reads ≡ self.old.reads }
        ensures counted { faults_of self.old.script ≤ faults_of self.new.script }
        ensures failed { IsErrOf result TreeFault.Failed → Rose (faults_of self.old.script) (faults_of self.new.script) }
        ensures exact { IsErrOf result TreeFault.Failed ↔ fails_next self.old.script ≡ true }
        ensures called { self.new.script ≡ called self.old.script }
    {
        if self.script.next_fails() {
            return Err(TreeFault::Failed);
        }
        self.sure.list(alloc, path)
    }

    fn read(&mut self, alloc: Global, path: &Text) -> Result<Option<Bytes>, TreeFault>
        ensures answer { IfOk result (λ found. found ≡ bytes_at self.old.files path.now) }
        ensures contents { self.new.files ≡ self.old.files }
        ensures asked { OnOk result (Some self.new.reads ≡ added (Some self.old.reads) (path.now ∷ [])) }
        ensures err { OnErr result (self.new.reads ≡ self.old.reads) }
        ensures stats { self.new.stats ≡ self.old.stats }
        ensures listings { self.new.listings ≡ self.old.listings }
        ensures counted { faults_of self.old.script ≤ faults_of self.new.script }
        ensures failed { IsErrOf result TreeFault.Failed → Rose (faults_of self.old.script) (faults_of self.new.script) }
        ensures exact { IsErrOf result TreeFault.Failed ↔ fails_next self.old.script ≡ true }
        ensures called { self.new.script ≡ called self.old.script }
    {
        if self.script.next_fails() {
            return Err(TreeFault::Failed);
        }
        self.sure.read(alloc, path)
    }
}

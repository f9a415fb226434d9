//! The index of the load path.
ghost use Rattle.std.specs.Prelude.{◌≡◌, ◌==◌, ◌<◌, ◌++◌, ◌∷◌, [], ℕ, List, Some, not, length, filter, remove, position, slice_get, OnOk, OnErr};
ghost use Rattle.std.specs.Cmp.Lexicographic.{pointwise};
ghost use Rattle.std.specs.Option.{option_map};
ghost use Rattle.indexmap.specs.IndexMap.{get};
ghost use Rattle.bs_outside.specs.Paths.{same_bytes};
ghost use Rattle.load_path_cache.specs.Index.{place_of, root_of};

use crate::table::{
    IndexedRoot, Place, add_features, forget_root, set_places, shift_places, unknown_features,
};
use bs_outside::{NoMemory, Text};
use indexmap::IndexMap;
use path_meaning::RootScan;
use std::alloc::Global;
use std::marker::Model;

/// The roots of the load path in order, each with the features that its files are. Contracts see the list of the roots.
///
/// A table has each feature's first root. A change of the roots changes the table and does not build it anew.
#[derive(Drop)]
pub struct LoadIndex {
    roots: Vec<IndexedRoot>,
    table: IndexMap<Text, Place>,
}

impl Model for LoadIndex {
    ghost use Rattle.std.specs.Prelude.{List};
    ghost use Rattle.std.specs.Coded.{coded_list};
    ghost use Rattle.load_path_cache.specs.declared.table.IndexedRoot.{IndexedRoot};
    ghost use Rattle.load_path_cache.specs.contracts.table.IndexedRoot as indexed;

    ghost Value = { List IndexedRoot };

    ghost coded = { coded_list indexed.the_row.coded };

    ghost use Rattle.load_path_cache.specs.Index.{IsTableOf};

    ghost view = { λ a. a.roots.items };

    ghost invariant = { λ a. IsTableOf a.roots.items a.table.entries };
}

impl LoadIndex {
    /// No roots.
    pub fn new(alloc: Global) -> LoadIndex
        ensures { result ≡ [] }
    {
        LoadIndex {
            roots: Vec::new(alloc),
            table: IndexMap::new(alloc),
        }
    }

    /// Puts a root last, with the files of its scan. Short of memory, nothing changes.
    pub fn push(&mut self, alloc: Global, root: &Text, scan: &RootScan) -> Result<(), NoMemory>
        ensures ok { OnOk result (self.new ≡ self.old ++ root_of root.now scan.now ∷ []) }
        ensures err { OnErr result (self.new ≡ self.old) }
    {
        let last = Place {
            root: self.roots.len(),
        };
        let files = scan.files.as_slice();
        let added = IndexedRoot::new(alloc, root, files)?;
        let unknown = unknown_features(alloc, &self.table, files)?;
        self.table.reserve(unknown.len())?;
        self.roots.push(added)?;
        add_features(&mut self.table, unknown, last);
        Ok(())
    }

    /// Puts a root first, with the files of its scan. Short of memory, nothing changes.
    pub fn unshift(&mut self, alloc: Global, root: &Text, scan: &RootScan) -> Result<(), NoMemory>
        ensures ok { OnOk result (self.new ≡ root_of root.now scan.now ∷ self.old) }
        ensures err { OnErr result (self.new ≡ self.old) }
    {
        let first = Place { root: 0 };
        let files = scan.files.as_slice();
        let added = IndexedRoot::new(alloc, root, files)?;
        let unknown = unknown_features(alloc, &self.table, files)?;
        self.table.reserve(unknown.len())?;
        self.roots.insert(0, added)?;
        shift_places(&mut self.table);
        set_places(&mut self.table, files, first);
        add_features(&mut self.table, unknown, first);
        Ok(())
    }

    /// Takes out all roots with this path.
    pub fn delete(&mut self, root: &Text)
        ensures { self.new ≡ filter (λ r. not (same_bytes r.path root.now)) self.old }
    {
        while let Some(gone) = self.place_of_root(root) {
            self.take_out(gone);
        }
    }

    /// The first root with this path.
    fn place_of_root(&self, root: &Text) -> Option<usize>
        ensures { result ≡ position (λ r. same_bytes r.path root.now) self.now }
    {
        self.roots.iter().position(|indexed| indexed.path == *root)
    }

    /// Takes out the root at a place.
    fn take_out(&mut self, gone: usize)
        requires { gone < length self.old }
        ensures { self.new ≡ remove self.old gone }
    {
        self.roots.remove(gone);
        forget_root(&mut self.table, &self.roots, gone);
    }

    /// The first root whose files hold the feature, by one look-up.
    pub fn find(&self, feature: &Text) -> Option<Place>
        ensures { result ≡ place_of self.now feature.now }
    {
        self.table.get(feature).copied()
    }

    /// The table from each feature that some root's files hold to its first root.
    pub fn table(&self) -> &IndexMap<Text, Place>
        ensures { (f : List ℕ) → get (pointwise ◌==◌) result.now f ≡ place_of self.now f }
    {
        &self.table
    }

    /// How many roots there are.
    pub fn len(&self) -> usize
        ensures { result ≡ length self.now }
    {
        self.roots.len()
    }

    /// Whether there are no roots.
    pub fn is_empty(&self) -> bool
        ensures { result ≡ (length self.now == 0) }
    {
        self.roots.is_empty()
    }

    /// The path of the root at a place.
    pub fn root(&self, place: usize) -> &Text
        requires { place < length self.now }
        ensures { option_map (λ r. r.path) (slice_get self.now place) ≡ Some result.now }
    {
        &self.roots[place].path
    }
}

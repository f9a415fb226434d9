//! What a walk has gathered of a body.
ghost use Rattle.std.specs.Prelude.{◌≡◌, ℕ, ◌^◌, [], map, take, nat_eq, OnOk};
ghost use Rattle.std.specs.List.{IsDistinct};
ghost use Rattle.ruby_lexer.specs.Bytes.{same, is_in};
ghost use Rattle.ruby_meaning.specs.Locals.{so_far, names_in, with_local, at_block};
ghost use Rattle.local_scopes.specs.Gathering.{gathered};

use bs_outside::NoMemory;
use indexmap::{IndexMap, IndexSet};
use std::alloc::Global;
use std::marker::Model;

/// The names of a body in the order in which they become known, and how many of them are known at each block.
#[derive(Drop)]
pub(crate) struct Known<'a> {
    names: IndexSet<&'a [u8]>,
    /// By the places of the blocks. Of several blocks at one place the first counts.
    marks: IndexMap<u64, usize>,
}

impl<'a> Model for Known<'a> {
    ghost use Rattle.local_scopes.specs.Gathering.{Gathering};

    ghost Value = { Gathering };

    ghost use Rattle.local_scopes.specs.KnownNames.{gathering_of, IsKnown};

    ghost view = { gathering_of };

    ghost invariant = { IsKnown };
}

impl<'a> Known<'a> {
    /// Nothing yet.
    pub(crate) fn new(alloc: Global) -> Known<'a>
        ensures { (place : ℕ) → gathered result place ≡ so_far [] }
    {
        Known {
            names: IndexSet::new(alloc),
            marks: IndexMap::new(alloc),
        }
    }

    /// A name is known from here on.
    pub(crate) fn declare(&mut self, name: &'a [u8]) -> Result<(), NoMemory>
        ensures { OnOk result ((place : ℕ) → gathered self.new place ≡ with_local name.now (gathered self.old place)) }
    {
        self.names.insert(name)?;
        Ok(())
    }

    /// A block stands here, whose place in the text this is.
    pub(crate) fn mark(&mut self, at: u64) -> Result<(), NoMemory>
        ensures { OnOk result ((place : ℕ) → gathered self.new place ≡ at_block (nat_eq at place) (gathered self.old place)) }
    {
        if self.marks.contains_key(&at) {
            return Ok(());
        }
        self.marks.insert(at, self.names.len())?;
        Ok(())
    }

    /// How many of the names are known at the block at this place, or all of them where none stands there.
    pub(crate) fn known_at(&self, place: u64) -> usize
        ensures { take result self.now.names ≡ names_in (gathered self.now place) }
    {
        match self.marks.get(&place) {
            Some(count) => *count,
            None => self.names.len(),
        }
    }

    /// All the names, each once.
    pub(crate) fn names(&self) -> &[&'a [u8]]
        ensures names { map (λ name. name.now) result.now ≡ self.now.names }
        ensures apart { IsDistinct same self.now.names }
        ensures all { gathered self.now (2 ^ 64) ≡ so_far self.now.names }
    {
        self.names.as_slice()
    }

    /// Whether the name is one of the first so many.
    pub(crate) fn is_among(&self, name: &[u8], count: usize) -> bool
        ensures { result ≡ is_in name.now (take count self.now.names) }
    {
        match self.names.get_index_of(name) {
            Some(index) => index < count,
            None => false,
        }
    }
}

//! The locals of one environment.
ghost use Rattle.std.specs.Prelude.{◌≡◌, [], ◌∷◌, ◌++◌, map, cond, Some, None, OnOk, OnErr};
ghost use Rattle.std.specs.List.{position};
ghost use Rattle.ruby_lexer.specs.Bytes.{Bytes, same, is_in};
ghost use Rattle.local_scopes.specs.Slots.{slot_of, or_else};

use bs_outside::NoMemory;
use indexmap::IndexMap;
use std::alloc::Global;
use std::marker::Model;

/// The names of an environment, in the order of their places. Contracts see them as a list.
///
/// A name is found through an index.
#[derive(Drop)]
pub(crate) struct Locals<'a> {
    names: Vec<&'a [u8]>,
    /// The first place of each name.
    slots: IndexMap<&'a [u8], usize>,
}

impl<'a> Model for Locals<'a> {
    ghost use Rattle.std.specs.Prelude.{ℕ, List};

    ghost Value = { List (List ℕ) };

    ghost use Rattle.local_scopes.specs.LocalLists.{names_of, IsIndexed};

    ghost view = { names_of };

    ghost invariant = { IsIndexed };
}

impl<'a> Locals<'a> {
    /// No names.
    pub(crate) fn new(alloc: Global) -> Locals<'a>
        ensures { result ≡ [] }
    {
        Locals {
            names: Vec::new(alloc),
            slots: IndexMap::new(alloc),
        }
    }

    /// A name more, at the next place.
    pub(crate) fn push(&mut self, name: &'a [u8]) -> Result<(), NoMemory>
        ensures ok { OnOk result (self.new ≡ self.old ++ name.now ∷ []) }
        ensures err { OnErr result (self.new ≡ self.old) }
    {
        self.names.reserve(1)?;
        let slot = self.names.len();
        note(&mut self.slots, name, slot)?;
        self.names.push(name)?;
        Ok(())
    }

    /// The first place of the name.
    pub(crate) fn slot(&self, name: &[u8]) -> Option<usize>
        ensures { result ≡ position (same name.now) self.now }
    {
        self.slots.get(name).copied()
    }

    /// Whether the name is one of them.
    pub(crate) fn contains(&self, name: &[u8]) -> bool
        ensures { result ≡ is_in name.now self.now }
    {
        self.slots.contains_key(name)
    }

    /// The names.
    pub(crate) fn names(&self) -> &[&'a [u8]]
        ensures { map (λ name. name.now) result.now ≡ self.now }
    {
        &self.names
    }
}

/// The name has this place, where it had none.
fn note<'a>(
    slots: &mut IndexMap<&'a [u8], usize>,
    name: &'a [u8],
    slot: usize,
) -> Result<(), NoMemory>
    ensures ok { OnOk result ((other : Bytes) → slot_of other slots.new.entries ≡ or_else (slot_of other slots.old.entries) (cond (same other name.now) (Some slot) None)) }
    ensures err { OnErr result (slots.new.entries ≡ slots.old.entries) }
{
    if slots.contains_key(name) {
        return Ok(());
    }
    slots.insert(name, slot)?;
    Ok(())
}

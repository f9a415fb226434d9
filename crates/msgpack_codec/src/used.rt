//! The spellings of the keys that a map has so far.
ghost use Rattle.std.specs.Prelude.{◌≡◌, ◌≤◌, ◌+◌, ℕ, List, [], ◌||◌, false, length, OnOk, IfOk};
ghost use Rattle.std.specs.Str.{bytes_eq};
ghost use Rattle.msgpack_codec.specs.Values.{is_in};

use std::alloc::{AllocError, Global};
use std::collections::BTreeSet;
use std::marker::Model;

/// Spellings of keys, each a part of the bytes that are read, so that no byte of them is copied.
#[derive(Drop)]
pub(crate) struct Used<'a> {
    spellings: BTreeSet<&'a [u8]>,
}

impl<'a> Model for Used<'a> {
    ghost use Rattle.std.specs.Prelude.{List, ℕ, map};

    ghost Value = { List (List ℕ) };

    ghost view = { λ u. map (λ k. k.now) u.spellings.keys };
}

impl<'a> Used<'a> {
    pub(crate) fn new(alloc: Global) -> Used<'a>
        ensures { result ≡ [] }
    {
        Used {
            spellings: BTreeSet::new(alloc),
        }
    }

    pub(crate) fn has(&self, spelling: &'a [u8]) -> bool
        ensures { result ≡ is_in self.now spelling.now }
    {
        self.spellings.contains(&spelling)
    }

    /// Adds a spelling that it does not have.
    pub(crate) fn add(&mut self, spelling: &'a [u8]) -> Result<(), AllocError>
        requires { is_in self.old spelling.now ≡ false }
        ensures has { OnOk result ((t : List ℕ) → is_in self.new t ≡ (bytes_eq t spelling.now || is_in self.old t)) }
        ensures length { OnOk result (length self.new ≡ length self.old + 1) }
    {
        self.spellings.insert(spelling)?;
        Ok(())
    }

    /// The same spellings, copied.
    pub(crate) fn copies(&self, alloc: Global) -> Result<Copies, AllocError>
        ensures same { IfOk result (λ copies. (t : List ℕ) → is_in copies t ≡ is_in self.now t) }
        ensures few { IfOk result (λ copies. length copies ≤ length self.now) }
    {
        let mut spellings = BTreeSet::new(alloc);
        for spelling in self.spellings.iter() {
            spellings.insert(Vec::from_slice(alloc, spelling)?)?;
        }
        Ok(Copies { spellings })
    }
}

/// Spellings of keys on their own, among which any bytes can be looked for.
#[derive(Drop)]
pub(crate) struct Copies {
    spellings: BTreeSet<Vec<u8>>,
}

impl Model for Copies {
    ghost use Rattle.std.specs.Prelude.{List, ℕ, map};

    ghost Value = { List (List ℕ) };

    ghost view = { λ c. map (λ k. k.items) c.spellings.keys };
}

impl Copies {
    pub(crate) fn has(&self, spelling: &[u8]) -> bool
        ensures { result ≡ is_in self.now spelling.now }
    {
        self.spellings.contains(spelling)
    }
}

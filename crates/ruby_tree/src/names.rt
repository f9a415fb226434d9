//! Names by their numbers.
ghost use Rattle.std.specs.Prelude.{◌≡◌, ◌<◌, ◌≤◌, length, Some, [], slice_get, unwrap_or, IfOk, OnErr};
ghost use Rattle.ruby_tree.specs.Names.{Extends, Interns, IsOnlyNumber};

use bs_outside::{NoMemory, Text};
use indexmap::IndexSet;
use std::alloc::Global;
use std::marker::Model;

/// A name, by its number in a table. Numbers count from 0.
#[derive(Clone, Copy, Debug, PartialEq, Eq, Drop)]
pub struct Name {
    /// The number.
    pub number: usize,
}

/// The names of a file, each text once. Contracts see the texts in the order of their numbers.
///
/// A text is found through an index.
#[derive(Drop)]
pub struct SymbolTable {
    texts: IndexSet<Text>,
}

impl Model for SymbolTable {
    ghost use Rattle.std.specs.Prelude.{ℕ, List, ◌==◌};
    ghost use Rattle.std.specs.Cmp.Lexicographic.{pointwise};
    ghost use Rattle.indexmap.specs.IndexSet.{IsUnique};

    ghost Value = { List (List ℕ) };

    ghost view = { λ table. table.texts.keys };

    ghost invariant = { λ table. IsUnique (pointwise ◌==◌) table.texts };
}

impl SymbolTable {
    /// A table of no names.
    pub fn new(alloc: Global) -> SymbolTable
        ensures { result ≡ [] }
    {
        SymbolTable {
            texts: IndexSet::new(alloc),
        }
    }

    /// The number of a text: a new one only for a text that has none, and that one counts on from the last.
    pub fn intern(&mut self, alloc: Global, text: &[u8]) -> Result<Name, NoMemory>
        ensures ok { IfOk result (λ name. Interns self.old self.new text.now name.number) }
        ensures within { IfOk result (λ name. name.number < length self.new) }
        // The names of before are names of the table still.
        ensures extends { Extends self.old self.new }
        ensures longer { length self.old ≤ length self.new }
        ensures err { OnErr result (self.new ≡ self.old) }
    {
        let text = Text::new(alloc, text)?;
        let (number, _) = self.texts.insert_full(text)?;
        Ok(Name { number })
    }

    /// The text of a name that this table gave, which no other number has.
    pub fn name(&self, name: Name) -> &[u8]
        requires { name.number < length self.now }
        ensures text { slice_get self.now name.number ≡ Some result.now }
        ensures alone { IsOnlyNumber self.now result.now name.number }
    {
        match self.texts.get_index(name.number) {
            Some(text) => text.as_slice(),
            None => unreachable!(),
        }
    }

    /// The text of a name, which has no bytes where the table has no such name.
    pub fn text(&self, name: Name) -> &[u8]
        ensures { result.now ≡ unwrap_or (slice_get self.now name.number) [] }
    {
        let Some(text) = self.texts.get_index(name.number) else {
            return b"";
        };
        text.as_slice()
    }
}

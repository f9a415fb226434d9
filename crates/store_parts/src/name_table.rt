//! The names of a store.

use bs_outside::NoMemory;
use indexmap::IndexSet;
use ruby_tree::Name;
use std::alloc::Global;

/// The names of a store, each text once. Contracts see the texts in the order of their numbers.
///
/// A text is found through an index.
#[derive(Drop)]
pub struct NameTable {
    texts: IndexSet<Vec<u8>>,
}

impl NameTable {
    /// A table of no names.
    pub fn new(alloc: Global) -> NameTable {
        NameTable {
            texts: IndexSet::new(alloc),
        }
    }

    /// The name of a text, where it has one.
    pub fn find(&self, text: &[u8]) -> Option<Name> {
        match self.texts.get_index_of(text) {
            Some(number) => Some(Name { number }),
            None => None,
        }
    }

    /// The name of a text: a new one only for a text that has none, and that one counts on from the last.
    pub fn intern(&mut self, alloc: Global, text: &[u8]) -> Result<Name, NoMemory> {
        if let Some(number) = self.texts.get_index_of(text) {
            return Ok(Name { number });
        }
        let text = Vec::from_slice(alloc, text)?;
        let (number, _) = self.texts.insert_full(text)?;
        Ok(Name { number })
    }

    /// The text of a name, which has no bytes where the table has no such name.
    pub fn text(&self, name: Name) -> &[u8] {
        let Some(text) = self.texts.get_index(name.number) else {
            return b"";
        };
        text
    }
}

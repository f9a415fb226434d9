//! Maps from texts to values.
ghost use Rattle.std.specs.Prelude.{◌≡◌, OnOk, OnErr};
ghost use Rattle.std.specs.Option.{option_copied};
ghost use Rattle.std.specs.FinMap as map;

use crate::{NoMemory, Text};
use std::alloc::Global;
use std::collections::BTreeMap;
use std::marker::Model;

/// A value for each of some texts, found through an index. Contracts see the finite map.
#[derive(Drop, Debug)]
pub struct TextMap<V> {
    index: BTreeMap<Text, V>,
}

impl<V> Model for TextMap<V> {
    ghost use Rattle.std.specs.Prelude.{ℕ, List};
    ghost use Rattle.std.specs.FinMap as map;
    ghost use Rattle.std.specs.BTreeMap.{IsOrdered};
    ghost use Rattle.std.specs.Ordering.{nat_cmp};
    ghost use Rattle.std.specs.Cmp.Lexicographic.{slice_cmp};
    ghost use Rattle.std.specs.Coded.{coded_ℕ, coded_list};

    ghost Value = { map.FinMap {K = List ℕ} (slice_cmp nat_cmp) V };

    ghost coded = { map.code (coded_list coded_ℕ) V.code };

    ghost view = { λ a. map.from_sorted a.index.entries };

    ghost invariant = { λ a. IsOrdered (slice_cmp nat_cmp) a.index };
}

impl<V> TextMap<V> {
    /// No texts.
    pub fn new(alloc: Global) -> TextMap<V>
        ensures { result ≡ map.empty }
    {
        TextMap {
            index: BTreeMap::new(alloc),
        }
    }

    /// The text's value.
    pub fn get(&self, text: &Text) -> Option<&V>
        ensures { option_copied result ≡ map.get self.now text.now }
    {
        self.index.get(text)
    }

    /// The texts with their values, in ascending order.
    pub fn index(&self) -> &BTreeMap<Text, V>
        ensures { result.now.entries ≡ map.entries self.now }
    {
        &self.index
    }
}

impl<V: Drop> TextMap<V> {
    /// Gives the text this value, in place of the one that it had.
    pub fn insert(&mut self, text: Text, value: V) -> Result<(), NoMemory>
        ensures ok { OnOk result (self.new ≡ map.insert self.old text value) }
        ensures err { OnErr result (self.new ≡ self.old) }
    {
        self.index.insert(text, value)?;
        Ok(())
    }
}

//! The pairs of a Hash.
ghost use Rattle.std.specs.Prelude.{◌≡◌, []};

use crate::Key;
use bs_outside::NoMemory;
use indexmap::IndexMap;
use std::alloc::Global;
use store_values::Value;

/// The pairs of a Hash, in the order in which their keys came, and its default.
///
/// A pair is found through an index of its key.
#[derive(Drop)]
pub struct HashTable {
    pairs: IndexMap<Key, (Value, Value)>,
    default: Value,
}

impl HashTable {
    /// No pairs.
    pub fn new(alloc: Global, default: Value) -> HashTable
        ensures none { result.pairs.entries ≡ [] }
        ensures default { result.default ≡ default }
    {
        HashTable {
            pairs: IndexMap::new(alloc),
            default,
        }
    }

    /// The value of a key that no pair has.
    pub fn default(&self) -> Value {
        self.default
    }

    /// How many pairs there are.
    pub fn len(&self) -> usize {
        self.pairs.len()
    }

    /// The pair at a place.
    pub fn at(&self, place: usize) -> Option<(Value, Value)> {
        match self.pairs.get_index(place) {
            Some((_, pair)) => Some(*pair),
            None => None,
        }
    }

    /// The value of a key.
    pub fn get(&self, key: Key) -> Option<Value> {
        match self.pairs.get(&key) {
            Some(pair) => Some(pair.1),
            None => None,
        }
    }

    /// The key has the value now: in its place, or else last.
    pub fn set(&mut self, key: Key, of: Value, value: Value) -> Result<(), NoMemory> {
        if let Some(pair) = self.pairs.get_mut(&key) {
            pair.1 = value;
            return Ok(());
        }
        self.pairs.insert(key, (of, value))?;
        Ok(())
    }

    /// Takes the pair of a key out, in time linear in the number of pairs behind it.
    pub fn remove(&mut self, key: Key) -> Option<Value> {
        match self.pairs.shift_remove(&key) {
            Some(pair) => Some(pair.1),
            None => None,
        }
    }

    /// Takes all pairs out.
    pub fn clear(&mut self) {
        self.pairs.clear();
    }
}

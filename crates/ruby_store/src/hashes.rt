//! Hashes, and the equality of their keys.
ghost use Rattle.std.specs.Prelude.{◌≡◌, []};
ghost use Rattle.ruby_meaning.specs.Value as meant;
ghost use Rattle.ruby_meaning.specs.Store.{hash_cells, new_object};
ghost use Rattle.ruby_store.specs.Changes.{Makes};
ghost use Rattle.ruby_store.specs.Model.{value_of};

use crate::object_parts::Content;
use crate::{ObjectId, Store, StoreFault, Value};
use bs_outside::NoMemory;
use std::alloc::Global;
use store_parts::{HashTable, Key};

impl Store {
    /// Makes a Hash without pairs.
    pub fn new_hash(&mut self, alloc: Global, default: Value) -> Result<ObjectId, StoreFault>
        ensures { Makes (hash_cells 0) (λ read. new_object (meant.table [] (value_of read default))) self.old result self.new }
    {
        let table = Box::new(alloc, HashTable::new(alloc, default))?;
        self.make(1, Content::Hash(table), false)
    }

    fn table(&self, id: ObjectId) -> Option<&HashTable> {
        match &self.object(id)?.content {
            Content::Hash(table) => Some(table),
            _ => None,
        }
    }

    fn table_mut(&mut self, id: ObjectId) -> Option<&mut HashTable> {
        match &mut self.objects.get_mut(id.number)?.content {
            Content::Hash(table) => Some(table),
            _ => None,
        }
    }

    /// The key of a value, None where it is a String whose text no key has.
    pub fn find_key(&self, of: &Value) -> Option<Key> {
        match self.text_of(of) {
            Some(text) => match self.names.find(text) {
                Some(name) => Some(Key::Text(name.number)),
                None => None,
            },
            None => Some(plain_key(of)),
        }
    }

    /// The key of a value. The text of a String gets a name.
    pub fn key_of(&mut self, alloc: Global, of: &Value) -> Result<Key, NoMemory> {
        if let Value::Object(id) = *of
            && let Some(object) = self.objects.get(id.number)
            && let Content::String(text) = &object.content
        {
            let name = self.names.intern(alloc, text.as_slice())?;
            return Ok(Key::Text(name.number));
        }
        Ok(plain_key(of))
    }

    /// Whether two values count as one key.
    pub fn is_same_key(&self, a: &Value, b: &Value) -> bool {
        match (self.text_of(a), self.text_of(b)) {
            (Some(text), Some(other)) => text == other,
            (None, None) => plain_key(a) == plain_key(b),
            _ => false,
        }
    }

    /// The value of a missing key.
    pub fn hash_default(&self, id: ObjectId) -> Value {
        match self.table(id) {
            Some(table) => table.default(),
            None => Value::Nil,
        }
    }

    /// How many pairs a Hash has.
    pub fn hash_len(&self, id: ObjectId) -> usize {
        match self.table(id) {
            Some(table) => table.len(),
            None => 0,
        }
    }

    /// The pair at a place.
    pub fn hash_at(&self, id: ObjectId, place: usize) -> (Value, Value) {
        if let Some(table) = self.table(id)
            && let Some(pair) = table.at(place)
        {
            return pair;
        }
        (Value::Nil, Value::Nil)
    }

    /// The value of a key.
    pub fn hash_get(&self, id: ObjectId, key: &Value) -> Option<Value> {
        self.table(id)?.get(self.find_key(key)?)
    }

    /// The key has the value now: in its place, or else last, which takes two cells.
    pub fn hash_set(
        &mut self,
        alloc: Global,
        id: ObjectId,
        key: Value,
        value: Value,
    ) -> Result<(), StoreFault> {
        let is_new = self.table(id).is_some() && self.hash_get(id, &key).is_none();
        let cells = self.charged(if is_new { 2 } else { 0 })?;
        let of = self.key_of(alloc, &key)?;
        if let Some(table) = self.table_mut(id) {
            table.set(of, key, value)?;
        }
        self.cells = cells;
        Ok(())
    }

    /// Takes the pair of a key out, in time linear in the number of pairs behind it.
    pub fn hash_remove(&mut self, id: ObjectId, key: &Value) -> Option<Value> {
        let key = self.find_key(key)?;
        self.table_mut(id)?.remove(key)
    }

    /// Takes all pairs out.
    pub fn hash_clear(&mut self, id: ObjectId) {
        if let Some(table) = self.table_mut(id) {
            table.clear();
        }
    }
}

/// The key of a value that is no String.
fn plain_key(of: &Value) -> Key {
    match *of {
        Value::Nil => Key::Nil,
        Value::Bool(truth) => Key::Bool(truth),
        Value::Int(number) => Key::Int(number),
        Value::Sym(name) => Key::Sym(name.number),
        Value::Class(class) => Key::Object(class.number),
        Value::Object(id) => Key::Object(id.number),
    }
}

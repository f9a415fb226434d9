//! Values by names.
ghost use Rattle.std.specs.Prelude.{◌≡◌, [], None, OnOk, OnErr};
ghost use Rattle.ruby_tree.specs.declared.names.Name.{Name};
ghost use Rattle.store_parts.specs.Views.{value_named, Sets, Keeps};

use bs_outside::NoMemory;
use indexmap::IndexMap;
use ruby_tree::Name;
use std::alloc::Global;
use store_values::Value;

/// Values by names, in the order in which the names were first set.
#[derive(Drop)]
pub struct NameMap {
    values: IndexMap<usize, Value>,
}

impl NameMap {
    /// No values.
    pub fn new(alloc: Global) -> NameMap
        ensures none { (name : Name) → value_named result name ≡ None }
        ensures entries { result.values.entries ≡ [] }
    {
        NameMap {
            values: IndexMap::new(alloc),
        }
    }

    /// How many names have a value.
    pub fn len(&self) -> usize {
        self.values.len()
    }

    /// The value of a name.
    pub fn get(&self, name: Name) -> Option<Value>
        ensures { result ≡ value_named self.now name }
    {
        match self.values.get(&name.number) {
            Some(value) => Some(*value),
            None => None,
        }
    }

    /// The name at a place and its value.
    pub fn at(&self, place: usize) -> Option<(Name, Value)> {
        match self.values.get_index(place) {
            Some((number, value)) => Some((Name { number: *number }, *value)),
            None => None,
        }
    }

    /// The name has the value now: in its place, or else last.
    pub fn set(&mut self, name: Name, value: Value) -> Result<(), NoMemory>
        ensures ok { OnOk result (Sets (value_named self.old) (value_named self.new) name value) }
        ensures err { OnErr result (Keeps (value_named self.old) (value_named self.new)) }
    {
        self.values.insert(name.number, value)?;
        Ok(())
    }
}

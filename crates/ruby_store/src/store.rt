//! The store, its cells and its names.
ghost use Rattle.std.specs.Prelude.{◌≡◌, ◌+◌, ◌<◌, ◌≤◌, ◌++◌, ◌∷◌, [], length, replicate, MatchResult, IfOk, OnOk, is_some};
ghost use Rattle.std.specs.Option.{option_map};
ghost use Rattle.store_values.specs.declared.values.Value.TheVariants as value;
ghost use Rattle.store_parts.specs.Scopes.{outward, slot_of, with_slot_of};
ghost use Rattle.ruby_meaning.specs.Store.{cell_limit, environment_cells};
ghost use Rattle.store_parts.specs.Views.{value_named, Sets};
ghost use Rattle.ruby_meaning.specs.Definitions.{name_cost};
ghost use Rattle.ruby_store.specs.Cells.{Takes, OnFull, IsFull, or_nil};

use crate::method_cache::MethodCache;
use crate::object_parts::Object;
use crate::{ClassId, EnvId, Full, Name, StoreFault, Value};
use bs_outside::NoMemory;
use std::alloc::Global;
use store_parts::{Environments, NameMap, NameTable};

/// How many cells a store has.
pub const CELL_LIMIT: u64 = 16777216;

/// The objects, environments, classes, globals and names of a run.
///
/// Objects and classes count in one row, in the order in which they were made.
#[derive(Drop)]
pub struct Store {
    pub(crate) names: NameTable,
    pub(crate) objects: Vec<Object>,
    /// The classes and modules in the order in which they were made.
    pub(crate) classes: Vec<ClassId>,
    pub(crate) environments: Environments,
    pub(crate) globals: NameMap,
    pub(crate) cells: u64,
    pub(crate) cache: MethodCache,
}

impl Store {
    /// A store without classes.
    pub(crate) fn empty(alloc: Global) -> Result<Store, NoMemory> {
        Ok(Store {
            names: NameTable::new(alloc),
            objects: Vec::new(alloc),
            classes: Vec::new(alloc),
            environments: Environments::new(alloc),
            globals: NameMap::new(alloc),
            cells: 0,
            cache: MethodCache::new(alloc)?,
        })
    }

    /// The cells that are used.
    pub fn cells(&self) -> u64
        ensures { result ≡ self.now.cells }
    {
        self.cells
    }

    /// The cells that are left.
    pub fn room(&self) -> u64 {
        CELL_LIMIT.saturating_sub(self.cells)
    }

    /// What the cells are with so many more, where they don't pass the limit.
    pub(crate) fn charged(&self, cells: u64) -> Result<u64, StoreFault>
        ensures { MatchResult result (λ after. (after ≡ self.now.cells + cells) × (self.now.cells + cells ≤ cell_limit)) (λ e. IsFull e × (cell_limit < self.now.cells + cells)) }
    {
        if self.cells > CELL_LIMIT || cells > CELL_LIMIT - self.cells {
            return Err(StoreFault::Full(Full));
        }
        Ok(self.cells + cells)
    }

    /// The name of a text: a new one only for a text that has none.
    pub fn intern(&mut self, alloc: Global, text: &[u8]) -> Result<Name, NoMemory> {
        self.names.intern(alloc, text)
    }

    /// The name of a text, where it has one.
    pub fn find_name(&self, text: &[u8]) -> Option<Name> {
        self.names.find(text)
    }

    /// The text of a name.
    pub fn name_of(&self, name: Name) -> &[u8] {
        self.names.text(name)
    }

    /// Makes an environment of so many locals, each nil.
    pub fn new_env(&mut self, parent: Option<EnvId>, size: u64) -> Result<EnvId, StoreFault>
        ensures cells { Takes self.old.cells (environment_cells size) result self.new.cells }
        ensures full { OnFull result (self.new ≡ self.old) }
        ensures number { IfOk result (λ env. env.number ≡ length self.old.environments) }
        ensures added { OnOk result (self.new.environments ≡ self.old.environments ++ record { parent = option_map (λ e. e.number) parent; slots = replicate size value.Nil } ∷ []) }
        ensures rest { OnOk result (self.new ≡ record self.old { environments = self.new.environments; cells = self.new.cells }) }
    {
        let cells = self.charged(size.saturating_add(1))?;
        let env = self.environments.add(parent, size as usize)?;
        self.cells = cells;
        Ok(env)
    }

    /// The value of a local, in the environment that stands `level` steps outward.
    pub fn get_local(&self, env: EnvId, idx: u64, level: u64) -> Value
        ensures { result ≡ slot_of self.now.environments idx (outward self.now.environments level env.number) }
    {
        self.environments.get(env, idx as usize, level as usize)
    }

    /// Sets a local, in the environment that stands `level` steps outward.
    pub fn set_local(&mut self, env: EnvId, idx: u64, level: u64, value: Value)
        ensures { self.new ≡ record self.old { environments = with_slot_of self.old.environments idx value (outward self.old.environments level env.number) } }
    {
        self.environments
            .set(env, idx as usize, level as usize, value);
    }

    /// The value of a global, nil where it was never set.
    pub fn global(&self, name: Name) -> Value
        ensures { result ≡ or_nil (value_named self.now.globals name) }
    {
        match self.globals.get(name) {
            Some(value) => value,
            None => Value::Nil,
        }
    }

    /// Sets a global, which takes a cell at first.
    pub fn set_global(&mut self, name: Name, value: Value) -> Result<(), StoreFault>
        ensures cells { Takes self.old.cells (name_cost (is_some (value_named self.old.globals name))) result self.new.cells }
        ensures full { OnFull result (self.new ≡ self.old) }
        ensures ok { OnOk result (Sets (value_named self.old.globals) (value_named self.new.globals) name value) }
    {
        let is_new = self.globals.get(name).is_none();
        let cells = self.charged(if is_new { 1 } else { 0 })?;
        self.globals.set(name, value)?;
        self.cells = cells;
        Ok(())
    }
}

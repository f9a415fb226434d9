//! Rows of methods by their names.
ghost use Rattle.std.specs.Prelude.{◌≡◌, [], None, OnOk, OnErr};
ghost use Rattle.ruby_tree.specs.declared.names.Name.{Name};
ghost use Rattle.store_parts.specs.Views.{row_named, Sets, Keeps};

use bs_outside::NoMemory;
use indexmap::IndexMap;
use ruby_tree::Name;
use std::alloc::Global;
use store_values::MethodRow;

/// The latest row of each name.
#[derive(Drop)]
pub struct RowTable {
    rows: IndexMap<usize, MethodRow>,
}

impl RowTable {
    /// No rows.
    pub fn new(alloc: Global) -> RowTable
        ensures none { (name : Name) → row_named result name ≡ None }
        ensures entries { result.rows.entries ≡ [] }
    {
        RowTable {
            rows: IndexMap::new(alloc),
        }
    }

    /// The latest row of a name.
    pub fn get(&self, name: Name) -> Option<MethodRow>
        ensures { result ≡ row_named self.now name }
    {
        match self.rows.get(&name.number) {
            Some(row) => Some(*row),
            None => None,
        }
    }

    /// Adds a row, which is the latest of its name.
    pub fn add(&mut self, name: Name, row: MethodRow) -> Result<(), NoMemory>
        ensures ok { OnOk result (Sets (row_named self.old) (row_named self.new) name row) }
        ensures err { OnErr result (Keeps (row_named self.old) (row_named self.new)) }
    {
        self.rows.insert(name.number, row)?;
        Ok(())
    }
}

//! The parts of a store, each with an index of its own.
#![tactic(auto)]

mod elements;
mod environments;
mod hash_table;
mod keys;
mod name_map;
mod name_table;
mod row_table;

pub use elements::Elements;
pub use environments::Environments;
pub use hash_table::HashTable;
pub use keys::Key;
pub use name_map::NameMap;
pub use name_table::NameTable;
pub use row_table::RowTable;

//! The store of a run: objects, environments, classes and names, by their numbers.
#![tactic(auto)]

mod arrays;
mod classes;
mod constants;
mod hashes;
mod lines;
mod method_cache;
mod methods;
mod object_parts;
mod objects;
mod start;
mod store;
mod variables;

pub use object_parts::ObjectKind;
pub use ruby_tree::Name;
pub use store::{CELL_LIMIT, Store};
pub use store_parts::Key;
pub use store_values::{
    ArrayNative, ClassId, ControlNative, EnvId, Full, HashNative, IntegerNative, MethodRow,
    ModuleNative, Native, NilNative, ObjectId, ObjectNative, ProcRow, RangeNative, StoreFault,
    StringNative, SymbolNative, Value,
};

//! The values of a run, the numbers of what a store holds, and the rows of methods.
#![tactic(auto)]

mod faults;
mod ids;
mod natives;
mod rows;
mod values;

pub use faults::{Full, StoreFault};
pub use ids::{ClassId, EnvId, ObjectId};
pub use natives::{
    ArrayNative, ControlNative, HashNative, IntegerNative, ModuleNative, Native, NilNative,
    ObjectNative, RangeNative, StringNative, SymbolNative, native_rows,
};
pub use rows::{MethodRow, NativeRow, ProcRow};
pub use values::Value;

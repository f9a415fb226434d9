//! The load path: scans of its roots, the file that keeps them, and the index of their features.
#![tactic(auto)]

mod load_index;
mod looking;
mod path_store;
mod table;
mod text_set;

pub use load_index::LoadIndex;
pub use path_meaning::RootScan;
pub use path_store::PathStore;
pub use table::{IndexedRoot, Place};
pub use text_set::TextSet;

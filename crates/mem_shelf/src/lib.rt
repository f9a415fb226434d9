//! A folder of cache files in memory, with others that write to it, calls that fail and short appends.
#![tactic(auto)]

mod drafts;
mod folder;
pub mod laws;
mod lists;
mod script;
mod shelves;

pub use script::Script;
pub use shelves::{MemShelf, SureShelf};

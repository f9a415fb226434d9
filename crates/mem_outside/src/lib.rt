//! The outside in memory: trees, shelves, inputs and sinks that tell what they contain, and whose calls fail as a list says.
#![tactic(auto)]

mod files;
mod inputs;
mod shelves;
mod sinks;
mod trees;
mod unread;

pub use bs_outside::{Item as MemItem, Loaded};
pub use files::Files;
pub use inputs::{MemInput, SureInput};
pub use mem_shelf::{MemShelf, Script, SureShelf};
pub use shelves::NoShelf;
pub use sinks::{MemSink, SureSink};
pub use trees::{MemTree, SureTree};
pub use unread::Unread;

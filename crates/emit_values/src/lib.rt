//! Writes the code of values: literals, variables, texts with code, Arrays, Hashes, Ranges, paths of
//! constants, and what leaves a method, a loop, a block or a clause with values.
#![tactic(auto)]

mod collections;
mod exits;
mod literals;

pub use collections::collection;
pub use exits::exit;
pub use literals::{literal, variable};

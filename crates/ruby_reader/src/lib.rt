//! Reads Ruby.
#![tactic(auto)]

mod parsing;
mod reading;

pub use reading::{ReadError, SyntaxFault, read_program};

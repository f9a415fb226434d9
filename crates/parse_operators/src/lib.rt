//! The levels of operators.
//!
//! Each level knows its operators and the level below, whose operands it joins. A function that is given an operand goes on behind it.
#![tactic(auto)]

mod climbing;
mod operations;
mod precedence;
mod prefixes;

pub use climbing::{climb, level};
pub use prefixes::{minus, power, raised, unary_operand};

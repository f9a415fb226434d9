//! Writes the code of calls: of methods, of the method above, and of the block that was given.
#![tactic(auto)]

mod called;
mod calls;
mod operands;
mod params;

pub use calls::call;

//! Compiled sequences of instructions, the check that a body is sound, and the search in its catch rows.
#![tactic(auto)]

mod catch;
mod check;
mod depths;
mod environments;
mod instructions;
pub mod laws;
mod locals;
mod operands;
mod sequences;
mod shape;
mod spans;
mod throws;

pub use catch::find_catch;
pub use check::{Sound, check_body, check_body_in};
pub use environments::Environments;
pub use instructions::{Instr, Literal};
pub use sequences::{CatchKind, CatchRow, IndexRow, Line, SeqKind, Sequence, Unit};

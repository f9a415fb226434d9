//! Writes the code of one sequence: of a file, of the body of a method, a class, a module or a
//! block, or of a rescue or ensure part.
#![tactic(auto)]

mod below;
mod nodes;
mod sequences;

pub use sequences::{EmittedSequence, file, sequence};

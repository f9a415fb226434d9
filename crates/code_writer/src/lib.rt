//! Writes the code of one sequence, from its last instruction to its first.
//!
//! So each jump that leads on is written when the code that it jumps over stands, and needs no
//! place to be filled in later. Only a jump back, at the end of a loop, and where a catch row
//! begins, are told later.
#![tactic(auto)]

ghost use Rattle.std.specs.Prelude.{◌≡◌, ℕ};
ghost use Rattle.code_meaning.specs.Code.{Shape, lines_of, rows_of};
ghost use Rattle.code_writer.specs.Writing.{grown, nothing, code_of, table_of};

mod writer;

pub use writer::{Branch, Code, CodeWriter};

/// What is written for a shape, before nothing, is the code of the shape and its table of rows.
pub fn shapes_are_written()
    ensures code { (h : ℕ) (s : Shape) → code_of (grown h s nothing) ≡ lines_of h 0 s }
    ensures table { (h : ℕ) (s : Shape) → table_of (grown h s nothing) ≡ rows_of h 0 s }
{}

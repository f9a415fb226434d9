//! What a program means: its world, the evaluation of its tree, natives, the search for files, and
//! the plain run.
#![tactic(auto)]

pub mod answers;
pub mod laws;
pub mod programs;
pub mod words;

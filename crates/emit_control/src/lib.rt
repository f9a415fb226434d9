//! Writes the code of statements, and of what chooses among them.
#![tactic(auto)]

mod cases;
mod choices;
mod controls;
mod loops;
mod tests_of_cases;

pub use controls::control;

//! Assignments, commands, tests, modifiers and statements.
//!
//! A function that reads gives what the reader on lists (`reference_parser`) takes from where the parser stood, and leaves the parser behind it.
#![tactic(auto)]

mod arguments;
mod commands;
mod logic;
mod modifiers;
mod places;
mod sequences;
mod several;
mod values;
mod variables;

pub use arguments::{argument, assigned_value};
pub use logic::{expression, test};
pub use sequences::{statement, statements};

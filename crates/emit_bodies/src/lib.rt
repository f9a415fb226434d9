//! Writes the code of statements with clauses, of methods, classes and modules, and of bodies.
#![tactic(auto)]

mod bodies;
mod clauses;
mod definitions;
mod handlers;

pub use bodies::{definition_body, file_body};
pub use definitions::definition;
pub use handlers::handler;

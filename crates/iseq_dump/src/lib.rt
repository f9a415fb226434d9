//! The bytes of a compiled unit, and the unit that bytes spell.
#![tactic(auto)]

mod body;
mod cursor;
mod dumping;
mod fault;
mod head;
mod index;
mod instructions;
pub mod laws;
mod loading;
mod number;
mod part;
mod shapes;
mod text;

pub use dumping::dump;
pub use head::{Entry, Head};
pub use loading::{load_all, read_body, read_head};

//! A whole program: the recursion of the parser, and the walk to the line at which the grammar stops.
//!
//! A layer of the parser asks what nests of a [`Nested`](parse_state::Nested) and calls no layer above it. Here the layers are tied together: one function reads each symbol, and what nests
//! in it is read by the same function, with one level less. A text that is not derived is read once more, line of statements by line of statements, and into the headers of classes, modules and methods.
#![tactic(auto)]

mod below;
mod founds;
mod headers;
mod reading;
mod symbols;
mod turns;
mod walk;

pub use reading::{statements, stop_line};

//! Writes the code of what sets variables, constants, attributes and elements.
#![tactic(auto)]

mod assignments;
mod attributes;
mod elements;
mod setters;
mod targets;

pub use assignments::assignment;

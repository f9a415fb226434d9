//! Compiled code does what its tree means.
#![tactic(auto)]

pub mod alike;
pub mod bodies;
pub mod calls;
pub mod found;
pub mod frames;
pub mod sound;
pub mod soundness;
pub mod told;

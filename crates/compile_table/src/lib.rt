//! The compile table: the code of each tree, as a function.
#![tactic(auto)]

pub mod laws;

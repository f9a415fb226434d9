//! What a cache means: the payload of a source, entries, bytes that fit a tree, and whole items.
#![tactic(auto)]

pub mod laws;
pub mod unit_laws;

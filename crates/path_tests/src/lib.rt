//! Tests of the load path: its index.
#![tactic(auto)]

#[cfg(test)]
mod load_index;

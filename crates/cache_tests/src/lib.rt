//! Tests of the compile cache's names and keys.
#![tactic(auto)]

#[cfg(test)]
mod names_and_keys;

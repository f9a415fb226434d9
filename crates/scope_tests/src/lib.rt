//! Tests of the environments of locals and of the numbers of sequences, with ample memory.
#![tactic(auto)]

#[cfg(test)]
mod environments;
#[cfg(test)]
mod numbers;

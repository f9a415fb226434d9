//! Tests of the outside: paths, and trees, streams and shelves in memory.
#![tactic(auto)]

#[cfg(test)]
mod paths;
#[cfg(test)]
mod shelves;
#[cfg(test)]
mod streams;
#[cfg(test)]
mod trees;

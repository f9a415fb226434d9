//! Tests of whole runs, over the outside in memory.
#![tactic(auto)]

#[cfg(test)]
mod cached;
#[cfg(test)]
mod outcomes;
#[cfg(test)]
mod programs;
#[cfg(test)]
mod words;

//! A parser with one token of lookahead, as functions on lists of tokens, and the reading of a text
//! by it: definitions alone.
//!
//! The crate `reference_laws` proves that it takes exactly what the grammar derives.
#![tactic(auto)]

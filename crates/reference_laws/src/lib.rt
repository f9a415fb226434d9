//! Laws of the reference parser: it takes exactly what the grammar derives, and a text has one
//! reading. There is no product code.
#![tactic(auto)]

pub mod laws;
pub mod readings;

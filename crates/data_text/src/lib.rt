//! Reads data texts: JSON.
//!
//! The grammar is that of RFC 8259 with whole numbers alone.
#![tactic(auto)]

mod blanks;
mod fault;
mod numbers;
mod pairs;
mod reading;
mod strings;
mod units;
mod values;

pub use fault::{DataError, DataFault};
pub use reading::read_json;

//! Operands, and what stands behind them.
//!
//! A function that reads gives what the reader on lists (`reference_parser`) takes from where the parser stood, and leaves the parser behind it.
#![tactic(auto)]

mod behind;
mod definitions;
mod ends;
mod forms;
mod literals;
mod marks;
mod names;
mod postfixes;
mod primaries;
mod words;

pub use postfixes::postfix;
pub use primaries::primary;

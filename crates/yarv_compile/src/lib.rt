//! The compiler: the unit of a program, by the compile table.
#![tactic(auto)]

mod bodies;
mod compiling;
mod files;
pub mod laws;
mod nested;
mod params;
mod places;
pub mod same_code;
mod units;

pub use compiling::compile;

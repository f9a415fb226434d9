//! Where a parser stands, how it goes on by a token, and what one symbol of the grammar asks of another.
//!
//! A function that reads gives what the reader on lists (`reference_parser`) takes from where the parser stood, and leaves the parser behind it.
#![tactic(auto)]

mod cursor;
mod failures;
mod forms;
mod fronts;
mod layers;
mod nesting;
mod standing;

pub use cursor::{EnclosingBody, position_with};
pub use failures::Failure;
pub use forms::OperandForm;
pub use layers::{Operands, Operators};
pub use nesting::{Nested, NestedSymbol};
pub use standing::{Context, Parser};

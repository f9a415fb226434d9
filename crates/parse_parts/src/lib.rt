//! The parts of operands and statements: the items of a call, pairs, elements, parameters, variables that are set, bodies with their clauses, blocks, and the parts of texts.
//!
//! Each function gives what the reference parser takes from where the parser stood, of the symbols that nest as `nested` reads them, and leaves the parser behind it.
#![tactic(auto)]

mod blocks;
mod branches;
mod calls;
mod clauses;
mod given;
mod pairs;
mod params;
mod passing;
mod rows;
mod texts;
mod variables;

pub use blocks::{block, call_block, call_items, command_block};
pub use branches::{else_branches, superclass, when_list};
pub use calls::{command_items, in_brackets, items, items_behind};
pub use clauses::{body, else_part};
pub use given::ArgumentParts;
pub use pairs::pair_list;
pub use params::{parameter_list, parameters};
pub use rows::{classes, elements, several};
pub use texts::text_parts;
pub use variables::{bars, declare_if, exception_name, target, targets};

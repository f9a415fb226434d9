//! What the code of a node is written with: where it stands, what it is written into, and the parts
//! that nodes of several kinds have.
//!
//! Code is written from its end to its beginning, so parts are written in reverse order.
#![tactic(auto)]

mod emitter;
mod nodes;
mod output;
mod parts;

pub use emitter::{Emitter, self_flag};
pub use nodes::Nodes;
pub use output::{Child, Output};
pub use parts::{args, block_value, other, sum, values};

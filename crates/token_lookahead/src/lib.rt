//! What a parser sees of a Ruby file: the tokens that are left, and the names of locals.
#![tactic(auto)]

mod locals;
mod lookahead;

pub use locals::Locals;
pub use lookahead::{DoBlockOwner, Lookahead, Settable, plain_text};

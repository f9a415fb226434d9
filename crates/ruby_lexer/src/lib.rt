//! The tokens of a Ruby text.
#![tactic(auto)]

mod blocks;
mod bytes;
mod class;
mod cursor;
mod escapes;
mod gather;
pub mod laws;
mod lexing;
mod marks;
mod numbers;
mod parts;
mod piece;
mod pieces;
mod quotes;
mod reader;
mod small;
mod state;
mod token;
mod words;

pub use cursor::newlines;
pub use lexing::{LexError, LexFault, TokenPrefix, before_end, read_token_prefix, tokens};
pub use token::{Part, Token, TokenKind};

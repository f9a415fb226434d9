//! The pieces of a text.
use crate::token::TokenKind;

/// A piece of a text.
#[derive(Drop)]
pub enum Piece {
    Blank,
    Comment,
    /// The end of a line, which may be a token.
    LineEnd,
    Token(TokenKind),
}

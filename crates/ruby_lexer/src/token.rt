//! Tokens, which hold tokens where code stands in a literal.

use bs_outside::{Bytes, Items};

/// A token, by the part of the text that it is.
#[cycle(tokens)]
#[derive(Drop)]
pub struct Token {
    /// What it is.
    pub kind: TokenKind,
    /// The place of its first byte, counted from 0.
    pub from: usize,
    /// The place behind its last byte.
    pub to: usize,
    /// The line of its first byte, counted from 1.
    pub line: u64,
    /// Whether a blank stands between the token before it and this one.
    pub blank: bool,
}

/// What a token is. A kind without a field has its text in the source alone.
#[cycle(tokens)]
#[derive(Drop)]
pub enum TokenKind {
    /// A whole number, by its value, at most 2^63 - 1.
    Integer(i64),
    /// A name that begins with a small letter or `_`, or a keyword as a method's name.
    Name,
    /// A name that begins with a capital letter.
    Constant,
    /// `@name`
    Variable,
    /// `$name`, `$Name`, `$0`, `$:` or `$"`
    Global,
    /// A reserved word.
    Keyword,
    /// An operator or a mark.
    Mark,
    /// A newline that ends a statement, or `;`.
    Newline,
    /// A name or a text in double quotes, with the `:` behind it.
    Label(Items<Part>),
    /// A text in single or double quotes.
    Literal(Items<Part>),
    /// `:name` and its kin, by the name.
    Symbol(Bytes),
    /// `%w[..]`, by its words.
    Words(Items<Bytes>),
    /// `%i[..]`, by its names.
    Symbols(Items<Bytes>),
}

/// A part of a literal, or of a label.
#[cycle(tokens)]
#[derive(Drop)]
pub enum Part {
    /// Bytes that stand for themselves, at least one.
    Plain(Bytes),
    /// The tokens of `#{..}`.
    Code(Items<Token>),
}

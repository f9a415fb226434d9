//! Texts of whole files.
ghost use Rattle.std.specs.Prelude.{◌≡◌, IfOk, IfErr};
ghost use Rattle.ruby_tree.specs.Read.{tree_of};
ghost use Rattle.reference_parser.specs.ReadingOf.{tree, reading_of};
ghost use Rattle.ruby_reader.specs.Outcomes.{IsFaultOf, error_of};
ghost use Rattle.ruby_reader.specs.declared.reading.ReadError.TheVariants as read_error;

use crate::parsing::{failed, judged, parse};
use ruby_lexer::{LexError, read_token_prefix};
use ruby_tree::Program;
use std::alloc::{AllocError, Global};
use thiserror::Error;

/// The line of a text at which it is no Ruby.
#[derive(Drop, Debug, Clone, Copy, PartialEq, Eq, Error)]
#[error("syntax error in line {line}")]
pub struct SyntaxFault {
    pub line: u64,
}

/// Why a text was not read.
#[derive(Drop, Debug, Error)]
pub enum ReadError {
    /// It is no Ruby.
    #[error("{0}")]
    Syntax(SyntaxFault),
    #[error("out of memory")]
    NoMemory,
}

impl From<AllocError> for ReadError {
    ghost from_gives = { λ _ error. error ≡ read_error.NoMemory };

    fn from(_: AllocError) -> Self {
        ReadError::NoMemory
    }
}

impl From<LexError> for ReadError {
    ghost from_gives = { λ given error. error ≡ error_of given };

    fn from(error: LexError) -> Self {
        match error {
            LexError::Fault(fault) => ReadError::Syntax(SyntaxFault { line: fault.line }),
            LexError::NoMemory => ReadError::NoMemory,
        }
    }
}

/// Reads a text of Ruby: the tree of its statements, of which nothing stands where it may not.
///
/// A line `__END__` and what follows it are not read. Lines are counted from 1; the last line is
/// that of the last byte that is read.
///
/// # Limits
///
/// A text has at most 4,194,304 bytes. A number is at most 2^63 - 1, and code in literals nests at
/// most 200 deep: no token begins at what is beyond that. At most 200 symbols of the grammar nest
/// in one another, and a tree is at most 200 nodes deep.
///
/// # Errors
///
/// `ReadError::NoMemory` where there is not memory enough, and else `ReadError::Syntax` with the
/// line of the first of these faults:
///
/// - The bytes are no text: line 1 where they are too many, and the line of the first bad byte
///   where they are no UTF-8.
/// - Symbols of the grammar nest too deep: the last line.
/// - The tokens are no statements: behind as many whole lines as are statements, and behind the
///   header of a class, a module or a method if one stands there, and so on, the line of the next
///   token. Where no token is left, it is the line of the place at which no token begins, or the
///   last line.
/// - The tree is too deep: the last line.
/// - A node stands where it may not, as a `break` outside of a loop: the line of its first token.
///   Of several such nodes it is the first in the text.
pub fn read_program(alloc: Global, text: &[u8]) -> Result<Program, ReadError>
    ensures program { IfOk result (λ program. reading_of text.now ≡ tree (tree_of program.symbols program.root)) }
    ensures fault { IfErr result (IsFaultOf text.now) }
{
    let front = read_token_prefix(alloc, text)?;
    match parse(alloc, text, front.tokens.as_slice()) {
        Ok(parsed) => judged(alloc, text, &front, parsed),
        Err(failure) => Err(failed(alloc, text, &front, failure)),
    }
}

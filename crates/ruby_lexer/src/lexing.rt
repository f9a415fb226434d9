//! The tokens of a text, up to its end or its first fault.
ghost use Rattle.std.specs.Prelude.{◌≡◌, ◌≢◌, ◌≤◌, ◌<◌, ◌+◌, length, take, true, [], IfOk, IfErr, MatchOption};
ghost use Rattle.ruby_lexer.specs.Pieces.{seen_all};
ghost use Rattle.ruby_lexer.specs.Cut.{at_start};
ghost use Rattle.ruby_lexer.specs.Reading.{AllRead, FaultsWith, TextFaults};
ghost use Rattle.ruby_lexer.specs.Tokens.{is_end_line, end_length, before_end, IsText, IsFront, AreTokens};

use crate::bytes::{begins_with, starts};
use crate::cursor::{Cursor, newlines};
use crate::gather::settled;
use crate::state::{State, WordContext};
use crate::token::Token;
use bs_outside::Items;
use std::alloc::{AllocError, Global};
use std::str::from_utf8;
use thiserror::Error;

/// Code in literals nests at most so deep.
const DEPTH: u32 = 200;

/// A text has at most so many bytes.
const LIMIT: usize = 4194304;

/// Where a text has no token, or is no text.
#[derive(Clone, Copy, Debug, PartialEq, Eq, Drop)]
pub struct LexFault {
    /// The line of the place, counted from 1.
    pub line: u64,
}

/// Why a text gave no tokens.
#[derive(Debug, Drop, Error)]
pub enum LexError {
    #[error("no token begins at a place of the text")]
    Fault(LexFault),
    #[error("out of memory")]
    NoMemory,
}

impl From<AllocError> for LexError {
    ghost use Rattle.std.specs.Prelude.{◌≡◌};
    ghost use Rattle.ruby_lexer.specs.declared.lexing.LexError.TheVariants.{NoMemory};

    ghost from_gives = { λ _ e. e ≡ NoMemory };

    fn from(_: AllocError) -> LexError {
        LexError::NoMemory
    }
}

/// The tokens of a text up to its end, or up to the first place at which no piece begins.
#[derive(Drop)]
pub struct TokenPrefix {
    /// The tokens before that place.
    pub tokens: Items<Token>,
    /// The line of the place, if it is not the end of the text.
    pub fault: Option<u64>,
}

/// Whether a line `__END__` stands at the front.
fn is_end_line(text: &[u8]) -> bool
    ensures { result ≡ is_end_line text.now }
{
    starts(b"__END__", text)
        && (text.len() == 7 || begins_with(b'\n', text.get(7..).unwrap_or(&[])))
}

/// How many bytes stand before the first line `__END__`.
fn end_length(text: &[u8]) -> usize
    ensures count { result ≡ end_length true text.now }
    ensures fits { result ≤ length text.now }
{
    let mut left = text;
    let mut count = 0;
    let mut fresh = true;
    while let [byte, tail @ ..] = left {
        if fresh && is_end_line(left) {
            return count;
        }
        fresh = *byte == b'\n';
        count += 1;
        left = tail;
    }
    count
}

/// The text before the first line `__END__`, or the whole text where there is none. Tokens are parts of it.
pub fn before_end(text: &[u8]) -> &[u8]
    ensures { result.now ≡ before_end text.now }
{
    &text[..end_length(text)]
}

/// Where a text begins.
fn at_start() -> State
    ensures { result ≡ at_start }
{
    State {
        before: WordContext::Plain,
        joins: false,
        blank: false,
        braces: 0,
    }
}

impl Cursor<'_> {
    /// The tokens from the first place on.
    fn all(&mut self) -> Result<TokenPrefix, AllocError>
        requires { self.old.rest.now ≡ self.old.text.now }
        ensures { IfOk result (λ f. AllRead self.old.text.now (seen_all f.tokens) f.fault) }
    {
        let mut raws = Vec::new(self.alloc);
        let mut state = at_start();
        loop {
            let line = self.line();
            let is_end = self.rest.is_empty();
            let Some(next) = self.step(&mut raws, state, DEPTH)? else {
                let tokens = settled(self.alloc, self.text, raws)?;
                let fault = if is_end { None } else { Some(line) };
                return Ok(TokenPrefix { tokens, fault });
            };
            state = next;
        }
    }
}

/// The line of a fault in the bytes of the text, if they are none: too many, or no UTF-8.
fn text_fault(text: &[u8]) -> Option<u64>
    ensures { TextFaults text.now result }
{
    if text.len() > LIMIT {
        return Some(1);
    }
    match from_utf8(text) {
        Ok(_) => None,
        Err(error) => {
            let good = &text[..error.valid_up_to()];
            Some(newlines(good) as u64 + 1)
        }
    }
}

/// The tokens of a text up to its end, or up to the first place at which no blank, comment or token begins.
///
/// # Errors
/// `LexError::Fault` where the text has more than 4,194,304 bytes, with line 1, or is no UTF-8, with the line of its first bad byte.
pub fn read_token_prefix(alloc: Global, text: &[u8]) -> Result<TokenPrefix, LexError>
    ensures front { IfOk result (λ f. IsFront text.now (seen_all f.tokens) f.fault) }
    ensures fault { IfErr result (λ e. FaultsWith text.now e) }
    // So the line is 1 or that of the first bad byte.
    ensures no_text { IfErr result (λ e. e ≢ LexError.NoMemory → IsText text.now → ⊥) }
{
    if let Some(line) = text_fault(text) {
        return Err(LexError::Fault(LexFault { line }));
    }
    let mut cursor = Cursor::new(alloc, before_end(text));
    let front = cursor.all()?;
    Ok(front)
}

/// The tokens of a text, each of which is a part of it.
///
/// # Errors
/// `LexError::Fault` where the text has none: more than 4,194,304 bytes, with line 1; bytes that are no UTF-8, with the line of the first bad one; else with the line of the first place at which no blank, comment or token begins.
pub fn tokens(alloc: Global, text: &[u8]) -> Result<Items<Token>, LexError>
    ensures tokens { IfOk result (λ ts. AreTokens text.now (seen_all ts)) }
    ensures fault { IfErr result (λ e. FaultsWith text.now e) }
{
    let front = read_token_prefix(alloc, text)?;
    match front.fault {
        None => Ok(front.tokens),
        Some(line) => Err(LexError::Fault(LexFault { line })),
    }
}

//! What the first token holds.
ghost use Rattle.std.specs.Prelude.{◌≡◌, IfOk, option_map};
ghost use Rattle.ruby_lexer.specs.Forms.{text_of};
ghost use Rattle.ruby_lexer.specs.Pieces.{seen_all, seen_parts};
ghost use Rattle.ruby_tree.specs.Rules.{front};
ghost use Rattle.token_lookahead.specs.Lookaheads.{integer_in, symbol_in, words_in, symbols_in, label_in, literal_in};

use crate::lookahead::Lookahead;
use bs_outside::{Bytes, NoMemory};
use ruby_lexer::{Part, TokenKind};
use std::alloc::Global;

impl<'a> Lookahead<'a> {
    /// The whole number here.
    pub fn integer(self) -> Option<i64>
        ensures { result ≡ integer_in (front (seen_all self.entry.rest.now)) }
    {
        match self.front() {
            Some(TokenKind::Integer(it)) => Some(*it),
            _ => None,
        }
    }

    /// The name of the symbol here.
    pub fn symbol(self) -> Option<&'a [u8]>
        ensures { option_map (λ f. f.now) result ≡ symbol_in (front (seen_all self.entry.rest.now)) }
    {
        match self.front() {
            Some(TokenKind::Symbol(it)) => Some(it.as_slice()),
            _ => None,
        }
    }

    /// The words of the list of words here.
    pub fn words(self) -> Option<&'a [Bytes]>
        ensures { option_map (λ fs. fs.now) result ≡ words_in (front (seen_all self.entry.rest.now)) }
    {
        match self.front() {
            Some(TokenKind::Words(it)) => Some(it.as_slice()),
            _ => None,
        }
    }

    /// The names of the list of symbols here.
    pub fn symbols(self) -> Option<&'a [Bytes]>
        ensures { option_map (λ fs. fs.now) result ≡ symbols_in (front (seen_all self.entry.rest.now)) }
    {
        match self.front() {
            Some(TokenKind::Symbols(it)) => Some(it.as_slice()),
            _ => None,
        }
    }

    /// The parts of the label here.
    pub fn label(self) -> Option<&'a [Part]>
        ensures { option_map (λ ps. seen_parts ps.now) result ≡ label_in (front (seen_all self.entry.rest.now)) }
    {
        match self.front() {
            Some(TokenKind::Label(it)) => Some(it.as_slice()),
            _ => None,
        }
    }

    /// The parts of the literal here.
    pub fn literal(self) -> Option<&'a [Part]>
        ensures { option_map (λ ps. seen_parts ps.now) result ≡ literal_in (front (seen_all self.entry.rest.now)) }
    {
        match self.front() {
            Some(TokenKind::Literal(it)) => Some(it.as_slice()),
            _ => None,
        }
    }
}

/// The text of the parts of a literal, where they hold no code.
pub fn plain_text(alloc: Global, parts: &[Part]) -> Result<Option<Bytes>, NoMemory>
    ensures { IfOk result (λ text. text ≡ text_of (seen_parts parts.now)) }
{
    let mut text = Vec::new(alloc);
    let mut left = parts;
    while let [part, tail @ ..] = left {
        match part {
            Part::Plain(bytes) => text.extend_from_slice(bytes.as_slice())?,
            Part::Code(_) => return Ok(None),
        }
        left = tail;
    }
    Ok(Some(Bytes::from_vec(text)))
}

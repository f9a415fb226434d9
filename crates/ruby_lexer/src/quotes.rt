//! Names, labels, symbols, and texts in single quotes.
ghost use Rattle.std.specs.Prelude.{◌≡◌, ◌≤◌, ◌<◌, ◌++◌, length, take, drop, map, List, [], ◌∷◌, option_map, IfOk, Ok, None};
ghost use Rattle.ruby_lexer.specs.declared.state.State.{State as ReadState};
ghost use Rattle.ruby_lexer.specs.Pieces.{seen_kind, seen_parts, plain, ends, symbol};
ghost use Rattle.ruby_lexer.specs.Texts.{escapes_quote, single_text, plain_parts};
ghost use Rattle.ruby_lexer.specs.Words.{label_at, word_at};
ghost use Rattle.ruby_lexer.specs.Marks.{name_forms, operator_forms, colon_forms};
ghost use Rattle.ruby_lexer.specs.Scan.{first_of, first_some};
ghost use Rattle.ruby_lexer.specs.Views.{Reads, Gives, seen_piece, same_bytes};

use crate::bytes::begins_with;
use crate::class::Class;
use crate::cursor::Cursor;
use crate::marks::operator_length;
use crate::piece::Piece;
use crate::state::State;
use crate::token::{Part, TokenKind};
use crate::words::{begins_letter, begins_small, name_length, one_colon, word_kind};
use bs_outside::{Bytes, Items};
use std::alloc::{AllocError, Global};

/// One plain part, or none where there are no bytes.
pub fn plain_parts(alloc: Global, bytes: Bytes) -> Result<Items<Part>, AllocError>
    ensures { IfOk result (λ ps. seen_parts ps ≡ plain_parts bytes ends) }
{
    let mut parts = Items::new(alloc);
    if !bytes.is_empty() {
        parts.push(Part::Plain(bytes))?;
    }
    Ok(parts)
}

/// A backslash before a backslash or a single quote.
fn escapes_quote(first: u8, second: u8) -> bool
    ensures { result ≡ escapes_quote first second }
{
    first == b'\\' && (second == b'\\' || second == b'\'')
}

impl Cursor<'_> {
    /// The text up to the single quote that ends it.
    #[tactic(auto, unfolding(crate::specs::Texts::single_text), using(crate::proofs::Places::front_byte, std::proofs::lemmas::Grind::common_steps))]
    fn single_text(&mut self) -> Result<Option<Bytes>, AllocError>
        ensures value { Gives same_bytes result self.new.rest.now (single_text self.old.rest.now) }
        ensures text { self.new.text.now ≡ self.old.text.now }
    {
        let mut bytes = Vec::new(self.alloc);
        loop {
            match self.rest {
                [] => return Ok(None),
                [only] => {
                    if *only != b'\'' {
                        return Ok(None);
                    }
                    self.bump(1);
                    return Ok(Some(Bytes::from_vec(bytes)));
                }
                [first, second, ..] => {
                    if *first == b'\'' {
                        self.bump(1);
                        return Ok(Some(Bytes::from_vec(bytes)));
                    }
                    if escapes_quote(*first, *second) {
                        bytes.push(*second)?;
                        self.bump(2);
                    } else {
                        bytes.push(*first)?;
                        self.bump(1);
                    }
                }
            }
        }
    }

    /// A text in single quotes.
    #[tactic(auto, unfolding(crate::specs::Texts::single_at))]
    pub fn single_quote_piece(&mut self) -> Result<Option<Piece>, AllocError>
        ensures value { (s : ReadState) → Gives seen_piece result self.new.rest.now (first_of self.old.text.now s Class.SingleQuote self.old.rest.now) }
        ensures text { self.new.text.now ≡ self.old.text.now }
    {
        let [_, ..] = self.rest else {
            return Ok(None);
        };
        self.bump(1);
        let Some(bytes) = self.single_text()? else {
            return Ok(None);
        };
        let parts = plain_parts(self.alloc, bytes)?;
        Ok(Some(Piece::Token(TokenKind::Literal(parts))))
    }
}

/// One plain part.
fn one_part(alloc: Global, bytes: Bytes) -> Result<Items<Part>, AllocError>
    ensures { IfOk result (λ ps. seen_parts ps ≡ plain bytes ends) }
{
    let mut parts = Items::new(alloc);
    parts.push(Part::Plain(bytes))?;
    Ok(parts)
}

/// The bytes with a `=` behind them.
fn with_equals(alloc: Global, bytes: &[u8]) -> Result<Bytes, AllocError>
    ensures { IfOk result (λ f. f ≡ bytes.now ++ 61 ∷ []) }
{
    let mut all = Vec::from_slice(alloc, bytes)?;
    all.push(b'=')?;
    Ok(Bytes::from_vec(all))
}

impl Cursor<'_> {
    /// A name, a constant, a keyword or a label.
    #[tactic(auto, unfolding(crate::specs::Words::label_at, crate::specs::Words::word_at))]
    pub fn word_piece(&mut self, state: State) -> Result<Option<Piece>, AllocError>
        ensures value { Gives seen_piece result self.new.rest.now (first_of self.old.text.now state Class.Letter self.old.rest.now) }
        ensures text { self.new.text.now ≡ self.old.text.now }
    {
        let rest = self.rest;
        let [_, ..] = rest else {
            return Ok(None);
        };
        let length = name_length(rest);
        let word = &rest[..length];
        self.bump(length);
        if one_colon(self.rest) {
            let bytes = Bytes::new(self.alloc, word)?;
            let parts = one_part(self.alloc, bytes)?;
            self.bump(1);
            return Ok(Some(Piece::Token(TokenKind::Label(parts))));
        }
        match word_kind(state.before, word, self.rest) {
            None => Ok(None),
            Some(kind) => Ok(Some(Piece::Token(kind))),
        }
    }

    /// Behind `:`: a name, with `=` where one follows a name that begins with a small letter.
    fn name_symbol(&mut self) -> Result<Option<Piece>, AllocError>
        requires { 0 < length self.old.rest.now }
        ensures value { Gives seen_piece result self.new.rest.now (first_some (name_forms self.old.rest.now)) }
        ensures text { self.new.text.now ≡ self.old.text.now }
    {
        let rest = self.rest;
        let length = name_length(rest);
        let word = &rest[..length];
        self.bump(length);
        if begins_small(rest) && begins_with(b'=', self.rest) {
            let bytes = with_equals(self.alloc, word)?;
            self.bump(1);
            return Ok(Some(Piece::Token(TokenKind::Symbol(bytes))));
        }
        let bytes = Bytes::new(self.alloc, word)?;
        Ok(Some(Piece::Token(TokenKind::Symbol(bytes))))
    }

    /// Behind `:`: an operator, or nothing.
    fn operator_symbol(&mut self) -> Result<Option<Piece>, AllocError>
        ensures value { Gives seen_piece result self.new.rest.now (first_some (operator_forms self.old.rest.now)) }
        ensures text { self.new.text.now ≡ self.old.text.now }
    {
        let rest = self.rest;
        let Some(length) = operator_length(rest) else {
            return Ok(Some(Piece::Token(TokenKind::Mark)));
        };
        let bytes = Bytes::new(self.alloc, &rest[..length])?;
        self.bump(length);
        Ok(Some(Piece::Token(TokenKind::Symbol(bytes))))
    }

    /// Behind `:`: a symbol without quotes, or the second `:` of a mark, or nothing.
    #[tactic(auto, unfolding(crate::specs::Marks::colon_forms))]
    pub fn symbol_or_colon(&mut self) -> Result<Option<Piece>, AllocError>
        ensures value { Gives seen_piece result self.new.rest.now (first_some (colon_forms self.old.rest.now)) }
        ensures text { self.new.text.now ≡ self.old.text.now }
    {
        if begins_with(b':', self.rest) {
            self.bump(1);
            return Ok(Some(Piece::Token(TokenKind::Mark)));
        }
        if begins_with(b'"', self.rest) {
            return Ok(Some(Piece::Token(TokenKind::Mark)));
        }
        if begins_letter(self.rest) {
            return self.name_symbol();
        }
        self.operator_symbol()
    }
}

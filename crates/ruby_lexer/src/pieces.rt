//! The pieces of each class.
ghost use Rattle.std.specs.Prelude.{◌≡◌, ◌≤◌, ◌<◌, length, take, drop, map, List, [], ◌∷◌, option_map};
ghost use Rattle.ruby_lexer.specs.declared.class.Class.{Class as ByteClass};
ghost use Rattle.ruby_lexer.specs.declared.state.State.{State as ReadState};
ghost use Rattle.ruby_lexer.specs.Scan.{first_of, first_some};
ghost use Rattle.ruby_lexer.specs.Marks.{with_second, marks_at, is_method_name};
ghost use Rattle.ruby_lexer.specs.Views.{Reads, Gives, seen_piece, same_bytes};

use crate::bytes::begins_with;
use crate::class::Class;
use crate::cursor::Cursor;
use crate::marks::{mark_length, operator_length};
use crate::numbers::number;
use crate::piece::Piece;
use crate::state::{State, WordContext};
use crate::token::{Part, TokenKind};
use crate::words::{
    begins_letter, begins_small, begins_special, name_length, one_colon, word_kind,
};
use bs_outside::{Bytes, Items};
use std::alloc::AllocError;

impl Cursor<'_> {
    /// A piece of so many bytes.
    fn take_token(&mut self, kind: TokenKind, count: usize) -> Option<Piece>
        requires { count ≤ length self.old.rest.now }
        ensures value { result ≡ Some (Piece.Token kind) }
        ensures rest { self.new.rest.now ≡ drop count self.old.rest.now }
        ensures text { self.new.text.now ≡ self.old.text.now }
    {
        self.bump(count);
        Some(Piece::Token(kind))
    }

    /// A number.
    pub fn number_piece(&mut self) -> Option<Piece>
        ensures value { (s : ReadState) → Reads seen_piece result self.new.rest.now (first_of self.old.text.now s Class.Digit self.old.rest.now) }
        ensures text { self.new.text.now ≡ self.old.text.now }
    {
        let rest = self.rest;
        let [_, ..] = rest else {
            return None;
        };
        let Some((value, count)) = number(rest) else {
            return None;
        };
        self.bump(1);
        self.take_token(TokenKind::Integer(value), count)
    }

    /// Behind `@`: a name.
    #[tactic(auto, unfolding(crate::specs::Words::variable_at))]
    pub fn variable_piece(&mut self) -> Option<Piece>
        ensures value { (s : ReadState) → Reads seen_piece result self.new.rest.now (first_of self.old.text.now s Class.At self.old.rest.now) }
        ensures text { self.new.text.now ≡ self.old.text.now }
    {
        let rest = self.rest;
        let [_, name @ ..] = rest else {
            return None;
        };
        if !begins_small(name) {
            return None;
        }
        self.bump(1);
        self.take_token(TokenKind::Variable, name_length(name))
    }

    /// Behind `$`: a name, or one of three bytes.
    #[tactic(auto, unfolding(crate::specs::Words::global_at))]
    pub fn global_piece(&mut self) -> Option<Piece>
        ensures value { (s : ReadState) → Reads seen_piece result self.new.rest.now (first_of self.old.text.now s Class.Dollar self.old.rest.now) }
        ensures text { self.new.text.now ≡ self.old.text.now }
    {
        let rest = self.rest;
        let [_, name @ ..] = rest else {
            return None;
        };
        self.bump(1);
        if begins_letter(name) {
            return self.take_token(TokenKind::Global, name_length(name));
        }
        if begins_special(name) {
            return self.take_token(TokenKind::Global, 1);
        }
        None
    }

    /// `%`, an operator with it, or a list of words.
    pub fn percent_piece(&mut self) -> Result<Option<Piece>, AllocError>
        ensures value { (s : ReadState) → Gives seen_piece result self.new.rest.now (first_of self.old.text.now s Class.Percent self.old.rest.now) }
        ensures text { self.new.text.now ≡ self.old.text.now }
    {
        let rest = self.rest;
        let [_, ..] = rest else {
            return Ok(None);
        };
        self.bump(1);
        let list = self.list()?;
        if list.is_some() {
            return Ok(list);
        }
        Ok(self.mark_or_two(b'='))
    }

    /// A mark whose first byte was taken, and the second byte where it follows.
    fn mark_or_two(&mut self, second: u8) -> Option<Piece>
        ensures value { Reads seen_piece result self.new.rest.now (first_some (with_second second self.old.rest.now)) }
        ensures text { self.new.text.now ≡ self.old.text.now }
    {
        if begins_with(second, self.rest) {
            return self.take_token(TokenKind::Mark, 1);
        }
        self.take_token(TokenKind::Mark, 0)
    }

    /// `+` or `-`, an operator with it, or the name of a method.
    pub fn sign_piece(&mut self, state: State) -> Option<Piece>
        ensures value { Reads seen_piece result self.new.rest.now (first_of self.old.text.now state Class.Sign self.old.rest.now) }
        ensures text { self.new.text.now ≡ self.old.text.now }
    {
        let rest = self.rest;
        let [_, ..] = rest else {
            return None;
        };
        self.bump(1);
        if is_method_name(state.before) && begins_with(b'@', self.rest) {
            return self.take_token(TokenKind::Mark, 1);
        }
        self.mark_or_two(b'=')
    }

    /// The longest mark of the table.
    #[tactic(auto, using(crate::proofs::Tables::marks_first))]
    fn mark_piece(&mut self) -> Option<Piece>
        ensures value { Reads seen_piece result self.new.rest.now (first_some (marks_at self.old.rest.now)) }
        ensures text { self.new.text.now ≡ self.old.text.now }
    {
        match mark_length(self.rest) {
            None => None,
            Some(count) => self.take_token(TokenKind::Mark, count),
        }
    }

    /// An operator.
    pub fn operator_piece(&mut self) -> Option<Piece>
        ensures value { (s : ReadState) → Reads seen_piece result self.new.rest.now (first_of self.old.text.now s Class.Operator self.old.rest.now) }
        ensures text { self.new.text.now ≡ self.old.text.now }
    {
        let rest = self.rest;
        let [_, ..] = rest else {
            return None;
        };
        self.mark_piece()
    }

    /// A comment of many lines, or an operator that begins with `=`.
    pub fn equals_piece(&mut self) -> Option<Piece>
        ensures value { (s : ReadState) → Reads seen_piece result self.new.rest.now (first_of self.old.text.now s Class.Equals self.old.rest.now) }
        ensures text { self.new.text.now ≡ self.old.text.now }
    {
        let rest = self.rest;
        let [_, ..] = rest else {
            return None;
        };
        let comment = self.block_comment();
        if comment.is_some() {
            return comment;
        }
        self.mark_piece()
    }
}

/// Whether a name of a method stands behind it.
fn is_method_name(before: WordContext) -> bool
    ensures { result ≡ is_method_name before }
{
    match before {
        WordContext::Plain => false,
        WordContext::Dot | WordContext::Def => true,
    }
}

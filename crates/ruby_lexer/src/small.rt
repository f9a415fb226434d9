//! Blanks, comments, and pieces of one byte.
ghost use Rattle.std.specs.Prelude.{◌≡◌, ◌≤◌, ◌<◌, length, take, drop, map, List, [], ◌∷◌, option_map};
ghost use Rattle.ruby_lexer.specs.declared.state.State.{State as ReadState};
ghost use Rattle.ruby_lexer.specs.Scan.{first_of, first_some, first_byte};
ghost use Rattle.ruby_lexer.specs.Views.{Reads, seen_piece};

use crate::bytes::{begins_with, line_run};
use crate::class::Class;
use crate::cursor::Cursor;
use crate::piece::Piece;
use crate::token::TokenKind;

impl Cursor<'_> {
    /// The first byte, where a byte is a piece by itself.
    fn single_byte(&mut self, piece: Piece) -> Option<Piece>
        ensures value { Reads seen_piece result self.new.rest.now (first_byte (seen_piece piece) self.old.rest.now) }
        ensures text { self.new.text.now ≡ self.old.text.now }
    {
        let [_, ..] = self.rest else {
            return None;
        };
        self.bump(1);
        Some(piece)
    }

    /// A bracket, or another mark that no other one begins with.
    #[tactic(auto, using(crate::proofs::Heads::single_first, std::proofs::lemmas::Grind::common_steps))]
    pub fn single_piece(&mut self) -> Option<Piece>
        ensures value { (s : ReadState) → Reads seen_piece result self.new.rest.now (first_of self.old.text.now s Class.Single self.old.rest.now) }
        ensures text { self.new.text.now ≡ self.old.text.now }
    {
        self.single_byte(Piece::Token(TokenKind::Mark))
    }

    /// `;`
    #[tactic(auto, using(crate::proofs::Heads::semicolon_first, std::proofs::lemmas::Grind::common_steps))]
    pub fn semicolon_piece(&mut self) -> Option<Piece>
        ensures value { (s : ReadState) → Reads seen_piece result self.new.rest.now (first_of self.old.text.now s Class.Semicolon self.old.rest.now) }
        ensures text { self.new.text.now ≡ self.old.text.now }
    {
        self.single_byte(Piece::Token(TokenKind::Newline))
    }

    /// The end of a line.
    #[tactic(auto, using(crate::proofs::Heads::line_first, std::proofs::lemmas::Grind::common_steps))]
    pub fn line_piece(&mut self) -> Option<Piece>
        ensures value { (s : ReadState) → Reads seen_piece result self.new.rest.now (first_of self.old.text.now s Class.LineEnd self.old.rest.now) }
        ensures text { self.new.text.now ≡ self.old.text.now }
    {
        self.single_byte(Piece::LineEnd)
    }

    /// A space or a tab.
    #[tactic(auto, using(crate::proofs::Heads::space_first, std::proofs::lemmas::Grind::common_steps))]
    pub fn space_piece(&mut self) -> Option<Piece>
        ensures value { (s : ReadState) → Reads seen_piece result self.new.rest.now (first_of self.old.text.now s Class.Space self.old.rest.now) }
        ensures text { self.new.text.now ≡ self.old.text.now }
    {
        self.single_byte(Piece::Blank)
    }

    /// A carriage return before the end of a line.
    pub fn return_piece(&mut self) -> Option<Piece>
        ensures value { (s : ReadState) → Reads seen_piece result self.new.rest.now (first_of self.old.text.now s Class.Return self.old.rest.now) }
        ensures text { self.new.text.now ≡ self.old.text.now }
    {
        let [_, tail @ ..] = self.rest else {
            return None;
        };
        if !begins_with(b'\n', tail) {
            return None;
        }
        self.bump(1);
        Some(Piece::Blank)
    }

    /// A backslash and the end of its line.
    pub fn backslash_piece(&mut self) -> Option<Piece>
        ensures value { (s : ReadState) → Reads seen_piece result self.new.rest.now (first_of self.old.text.now s Class.Backslash self.old.rest.now) }
        ensures text { self.new.text.now ≡ self.old.text.now }
    {
        let [_, tail @ ..] = self.rest else {
            return None;
        };
        if !begins_with(b'\n', tail) {
            return None;
        }
        self.bump(1);
        self.bump(1);
        Some(Piece::Blank)
    }

    /// A comment, up to the end of its line.
    pub fn comment_piece(&mut self) -> Option<Piece>
        ensures value { (s : ReadState) → Reads seen_piece result self.new.rest.now (first_of self.old.text.now s Class.Hash self.old.rest.now) }
        ensures text { self.new.text.now ≡ self.old.text.now }
    {
        let [_, ..] = self.rest else {
            return None;
        };
        self.bump(1);
        self.bump(line_run(self.rest));
        Some(Piece::Comment)
    }
}

//! The reader of pieces.
ghost use Rattle.std.specs.Prelude.{◌≡◌, ◌≤◌, ◌<◌, ◌+◌, ◌^◌, suc, true, false, length, take, drop, map, List, ℕ, [], ◌∷◌, option_map, IfOk, Ok, Some, None};
ghost use Rattle.ruby_lexer.specs.declared.class.Class.{Class as ByteClass};
ghost use Rattle.ruby_lexer.specs.declared.state.State.{State as ReadState};
ghost use Rattle.ruby_lexer.specs.Pieces.{seen_kind, seen_parts, seen_all, Toks};
ghost use Rattle.ruby_lexer.specs.Classes.{class_of};
ghost use Rattle.ruby_lexer.specs.Scan.{first_of, scan_piece, scan_inside, scan_quoted, scan_symbol, coder, no_coder, ends_code};
ghost use Rattle.ruby_lexer.specs.Cut.{in_code};
ghost use Rattle.ruby_lexer.specs.Forms.{text_of};
ghost use Rattle.ruby_lexer.specs.Steps.{Steps, AddsCode};
ghost use Rattle.ruby_lexer.specs.Views.{Reads, Gives, seen_piece, same_bytes};

use crate::bytes::begins_with;
use crate::class::{Class, class_of};
use crate::cursor::Cursor;
use crate::gather::{PendingToken, Span, add_piece, settled};
use crate::parts::{add_code, add_plain, opens_code, symbol_of};
use crate::piece::Piece;
use crate::state::{State, WordContext};
use crate::token::{Part, Token, TokenKind};
use crate::words::one_colon;
use bs_outside::{Bytes, Items};
use std::alloc::{AllocError, Global};
use std::mem;

impl Cursor<'_> {
    /// The longest piece of the class, but for those with double quotes.
    fn plain_piece(&mut self, class: Class, state: State) -> Result<Option<Piece>, AllocError>
        ensures value { Gives seen_piece result self.new.rest.now (first_of self.old.text.now state class self.old.rest.now) }
        ensures text { self.new.text.now ≡ self.old.text.now }
    {
        match class {
            Class::Digit => Ok(self.number_piece()),
            Class::Letter => self.word_piece(state),
            Class::At => Ok(self.variable_piece()),
            Class::Dollar => Ok(self.global_piece()),
            Class::SingleQuote => self.single_quote_piece(),
            Class::Colon => self.colon_piece(),
            Class::Percent => self.percent_piece(),
            Class::Equals => Ok(self.equals_piece()),
            Class::Sign => Ok(self.sign_piece(state)),
            Class::Operator => Ok(self.operator_piece()),
            Class::Single => Ok(self.single_piece()),
            Class::Semicolon => Ok(self.semicolon_piece()),
            Class::LineEnd => Ok(self.line_piece()),
            Class::Space => Ok(self.space_piece()),
            Class::Return => Ok(self.return_piece()),
            Class::Backslash => Ok(self.backslash_piece()),
            Class::Hash => Ok(self.comment_piece()),
            Class::DoubleQuote => Ok(None),
            Class::Other => Ok(None),
        }
    }

    /// `:`, a mark with it, or a symbol without quotes.
    fn colon_piece(&mut self) -> Result<Option<Piece>, AllocError>
        ensures value { (s : ReadState) → Gives seen_piece result self.new.rest.now (first_of self.old.text.now s Class.Colon self.old.rest.now) }
        ensures text { self.new.text.now ≡ self.old.text.now }
    {
        let [_, ..] = self.rest else {
            return Ok(None);
        };
        self.bump(1);
        self.symbol_or_colon()
    }
}

/// Where the code of a literal begins.
fn in_code() -> State
    ensures { result ≡ in_code }
{
    State {
        before: WordContext::Plain,
        joins: false,
        blank: false,
        braces: 1,
    }
}

/// Whether the `}` that ends the code stands at the front.
fn ends_code(state: State, text: &[u8]) -> bool
    ensures { result ≡ ends_code state text.now }
{
    begins_with(b'}', text) && state.braces == 1
}

impl<'a> Cursor<'a> {
    /// The same place.
    fn copy(&self) -> Cursor<'a>
        ensures rest { result.rest.now ≡ self.now.rest.now }
        ensures text { result.text.now ≡ self.now.text.now }
    {
        Cursor {
            text: self.text,
            rest: self.rest,
            line: self.line,
            no_list_end: self.no_list_end,
            no_comment_end: self.no_comment_end,
            alloc: self.alloc,
        }
    }

    /// The longest piece here.
    #[cycle(reader)]
    fn piece(&mut self, state: State, depth: u32) -> Result<Option<Piece>, AllocError>
        ensures value { Gives seen_piece result self.new.rest.now (scan_piece self.old.text.now (coder self.old.text.now depth) state self.old.rest.now) }
        ensures text { self.new.text.now ≡ self.old.text.now }
    {
        let [first, ..] = self.rest else {
            return Ok(None);
        };
        let class = class_of(*first);
        match class {
            Class::DoubleQuote => self.quoted_piece(depth),
            Class::Colon => {
                let symbol = self.quoted_symbol()?;
                if symbol.is_some() {
                    return Ok(symbol);
                }
                self.plain_piece(class, state)
            }
            _ => self.plain_piece(class, state),
        }
    }

    /// A literal or a label in double quotes, the first of which stands here.
    #[cycle(reader)]
    fn quoted_piece(&mut self, depth: u32) -> Result<Option<Piece>, AllocError>
        requires { 0 < length self.old.rest.now }
        ensures value { Gives seen_piece result self.new.rest.now (scan_quoted (coder self.old.text.now depth) (drop 1 self.old.rest.now)) }
        ensures text { self.new.text.now ≡ self.old.text.now }
    {
        self.bump(1);
        let Some(parts) = self.inside(depth)? else {
            return Ok(None);
        };
        if one_colon(self.rest) {
            self.bump(1);
            return Ok(Some(Piece::Token(TokenKind::Label(parts))));
        }
        Ok(Some(Piece::Token(TokenKind::Literal(parts))))
    }

    /// A symbol in double quotes, whose `:` stands here.
    #[cycle(reader)]
    fn quoted_symbol(&mut self) -> Result<Option<Piece>, AllocError>
        requires { 0 < length self.old.rest.now }
        ensures value { Gives seen_piece result self.new.rest.now (scan_symbol (drop 1 self.old.rest.now)) }
        ensures none { result ≡ Ok None → self.new.rest.now ≡ self.old.rest.now }
        ensures text { self.new.text.now ≡ self.old.text.now }
    {
        let before = self.copy();
        self.bump(1);
        if begins_with(b'"', self.rest) {
            self.bump(1);
            if let Some(symbol) = symbol_of(self.alloc, self.inside(0)?)? {
                return Ok(Some(Piece::Token(symbol)));
            }
        }
        *self = before;
        Ok(None)
    }

    /// What stands in double quotes.
    #[cycle(reader)]
    fn inside(&mut self, depth: u32) -> Result<Option<Items<Part>>, AllocError>
        ensures value { Gives (λ ps. seen_parts ps) result self.new.rest.now (scan_inside (coder self.old.text.now depth) (suc (length self.old.rest.now)) self.old.rest.now) }
        ensures text { self.new.text.now ≡ self.old.text.now }
    {
        let mut parts = Vec::new(self.alloc);
        let mut bytes = Vec::new(self.alloc);
        loop {
            let [byte, tail @ ..] = self.rest else {
                return Ok(None);
            };
            if *byte == b'"' {
                self.bump(1);
                add_plain(&mut parts, bytes)?;
                return Ok(Some(Items::from_vec(parts)));
            }
            if *byte == b'\\' {
                self.bump(1);
                let Some(given) = self.escape()? else {
                    return Ok(None);
                };
                bytes.extend_from_slice(given.as_slice())?;
            } else if opens_code(*byte, tail) {
                let whole = mem::replace(&mut bytes, Vec::new(self.alloc));
                if !self.code_part(&mut parts, whole, depth)? {
                    return Ok(None);
                }
            } else {
                bytes.push(*byte)?;
                self.bump(1);
            }
        }
    }

    /// Code in double quotes, whose `#{` stands here, behind the bytes.
    #[cycle(reader)]
    fn code_part(
        &mut self,
        parts: &mut Vec<Part>,
        bytes: Vec<u8>,
        depth: u32,
    ) -> Result<bool, AllocError>
        requires { 2 ≤ length self.old.rest.now }
        ensures value { IfOk result (λ b. AddsCode (coder self.old.text.now depth) (drop 2 self.old.rest.now) parts.old.items bytes.items b parts.new.items self.new.rest.now) }
        ensures text { self.new.text.now ≡ self.old.text.now }
    {
        self.bump(2);
        let Some(tokens) = self.code(depth)? else {
            return Ok(false);
        };
        self.bump(1);
        add_plain(parts, bytes)?;
        add_code(parts, tokens)?;
        Ok(true)
    }

    /// The tokens up to the `}` that ends the code.
    #[cycle(reader)]
    fn code(&mut self, depth: u32) -> Result<Option<Items<Token>>, AllocError>
        ensures value { Gives (λ ts. seen_all ts) result self.new.rest.now (coder self.old.text.now depth self.old.rest.now) }
        ensures text { self.new.text.now ≡ self.old.text.now }
    {
        if depth == 0 {
            return Ok(None);
        }
        let mut raws = Vec::new(self.alloc);
        let mut state = in_code();
        while !ends_code(state, self.rest) {
            let Some(next) = self.step(&mut raws, state, depth - 1)? else {
                return Ok(None);
            };
            state = next;
        }
        let tokens = settled(self.alloc, self.text, raws)?;
        Ok(Some(tokens))
    }

    /// Adds the longest piece here, and says what counts behind it.
    #[cycle(reader)]
    pub fn step(
        &mut self,
        raws: &mut Vec<PendingToken>,
        state: State,
        depth: u32,
    ) -> Result<Option<State>, AllocError>
        requires { state.braces + 1 < 2 ^ 64 }
        ensures value { IfOk result (λ z. Steps self.old.text.now (coder self.old.text.now depth) state self.old.rest.now raws.old.items z raws.new.items self.new.rest.now) }
        ensures text { self.new.text.now ≡ self.old.text.now }
    {
        let line = self.line();
        let from = self.place();
        let before = self.rest;
        let Some(piece) = self.piece(state, depth)? else {
            return Ok(None);
        };
        let to = self.place();
        let count = before.len().saturating_sub(self.rest.len());
        let span = Span { from, to, line };
        let next = add_piece(raws, state, piece, span, &before[..count])?;
        Ok(Some(next))
    }
}

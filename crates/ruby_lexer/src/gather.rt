//! The tokens of pieces, and the newlines among them that are none.
ghost use Rattle.std.specs.Prelude.{◌≡◌, ◌≤◌, ◌<◌, ◌+◌, ◌^◌, length, take, drop, ℕ, List, [], ◌∷◌, ◌&&◌, IfOk, reverse, slice_index};
ghost use Rattle.ruby_lexer.specs.Pieces.{seen, seen_kind, seen_all, Toks, none, more, Tok, tok, Kind, line_end};
ghost use Rattle.ruby_lexer.specs.Settle.{settle, onto, tok_with_blank, tok_name, closes_before};
ghost use Rattle.ruby_lexer.specs.Cut.{before_of, joins_of, braces_of, state_after_token, state_after_line, after, is_mark, is_name, is_closer, is_point, begins_with_name, closes, with_blank, has_blank, put_line, put_at};
ghost use Rattle.ruby_lexer.specs.Views.{seen_piece};

use crate::marks::is_closing_mark;
use crate::piece::Piece;
use crate::state::{State, WordContext};
use crate::token::{Token, TokenKind};
use bs_outside::Items;
use std::alloc::{AllocError, Global};

/// A token, or a newline that may be none.
#[derive(Drop)]
pub struct PendingToken {
    pub token: Token,
    pub is_line: bool,
}

fn before_of(kind: &TokenKind, bytes: &[u8]) -> WordContext
    ensures { result ≡ before_of (seen_kind kind.now) bytes.now }
{
    match kind {
        TokenKind::Mark => {
            if bytes == b".".as_slice() || bytes == b"&.".as_slice() {
                WordContext::Dot
            } else {
                WordContext::Plain
            }
        }
        TokenKind::Keyword => {
            if bytes == b"def".as_slice() {
                WordContext::Def
            } else {
                WordContext::Plain
            }
        }
        _ => WordContext::Plain,
    }
}

fn joins_of(kind: &TokenKind, bytes: &[u8]) -> bool
    ensures { result ≡ joins_of (seen_kind kind.now) bytes.now }
{
    match kind {
        TokenKind::Mark => !is_closing_mark(bytes),
        TokenKind::Keyword => {
            bytes == b"and".as_slice() || bytes == b"or".as_slice() || bytes == b"not".as_slice()
        }
        _ => false,
    }
}

fn braces_of(kind: &TokenKind, bytes: &[u8], braces: u64) -> u64
    requires { braces + 1 < 2 ^ 64 }
    ensures { result ≡ braces_of (seen_kind kind.now) bytes.now braces }
{
    if !matches!(kind, TokenKind::Mark) || braces == 0 {
        return braces;
    }
    if bytes == b"{".as_slice() {
        braces + 1
    } else if bytes == b"}".as_slice() {
        braces - 1
    } else {
        braces
    }
}

/// What counts behind a token of the bytes.
fn state_after_token(state: State, kind: &TokenKind, bytes: &[u8]) -> State
    requires { state.braces + 1 < 2 ^ 64 }
    ensures { result ≡ state_after_token state (seen_kind kind.now) bytes.now }
{
    State {
        before: before_of(kind, bytes),
        joins: joins_of(kind, bytes),
        blank: false,
        braces: braces_of(kind, bytes, state.braces),
    }
}

/// The places of a piece, and its line.
#[derive(Clone, Copy)]
pub struct Span {
    pub from: usize,
    pub to: usize,
    pub line: u64,
}

fn token(kind: TokenKind, span: Span, blank: bool) -> Token
    ensures { seen result ≡ tok (seen_kind kind) span.from span.to span.line blank }
{
    Token {
        kind,
        from: span.from,
        to: span.to,
        line: span.line,
        blank,
    }
}

/// Adds a newline that may be a token.
#[tactic(auto, using(crate::proofs::Gathered::settle_push, std::proofs::lemmas::Grind::common_steps))]
fn add_line(raws: &mut Vec<PendingToken>, state: State, span: Span) -> Result<State, AllocError>
    ensures next { IfOk result (λ z. z ≡ state_after_line state) }
    ensures raws { IfOk result (λ _. (text : List ℕ) (ts : Toks) → settle text raws.new.items ts ≡ settle text raws.old.items (put_at text state line_end span.from span.to span.line ts)) }
{
    if state.joins {
        return Ok(state);
    }
    let token = token(TokenKind::Newline, span, state.blank);
    raws.push(PendingToken {
        token,
        is_line: true,
    })?;
    Ok(State {
        before: WordContext::Plain,
        joins: false,
        blank: false,
        braces: state.braces,
    })
}

/// Adds a token.
#[tactic(auto, using(crate::proofs::Gathered::settle_push, std::proofs::lemmas::Grind::common_steps))]
fn add_token(
    raws: &mut Vec<PendingToken>,
    kind: TokenKind,
    span: Span,
    blank: bool,
) -> Result<(), AllocError>
    ensures raws { IfOk result (λ _. (text : List ℕ) (ts : Toks) → settle text raws.new.items ts ≡ settle text raws.old.items (more (tok (seen_kind kind) span.from span.to span.line blank) ts)) }
{
    let token = token(kind, span, blank);
    raws.push(PendingToken {
        token,
        is_line: false,
    })?;
    Ok(())
}

/// Adds a piece of the bytes, and says what counts behind it.
pub fn add_piece(
    raws: &mut Vec<PendingToken>,
    state: State,
    piece: Piece,
    span: Span,
    bytes: &[u8],
) -> Result<State, AllocError>
    requires { state.braces + 1 < 2 ^ 64 }
    ensures next { IfOk result (λ z. z ≡ after state (seen_piece piece) bytes.now) }
    ensures raws { IfOk result (λ _. (text : List ℕ) (ts : Toks) → settle text raws.new.items ts ≡ settle text raws.old.items (put_at text state (seen_piece piece) span.from span.to span.line ts)) }
{
    match piece {
        Piece::Blank => Ok(State {
            before: state.before,
            joins: state.joins,
            blank: true,
            braces: state.braces,
        }),
        Piece::Comment => Ok(state),
        Piece::LineEnd => add_line(raws, state, span),
        Piece::Token(kind) => {
            let next = state_after_token(state, &kind, bytes);
            add_token(raws, kind, span, state.blank)?;
            Ok(next)
        }
    }
}

fn is_mark(kind: &TokenKind) -> bool
    ensures { result ≡ is_mark (seen_kind kind.now) }
{
    matches!(kind, TokenKind::Mark)
}

fn is_name(kind: &TokenKind) -> bool
    ensures { result ≡ is_name (seen_kind kind.now) }
{
    matches!(kind, TokenKind::Name)
}

fn byte_at(text: &[u8], place: usize) -> u8
    ensures { result ≡ slice_index text.now place }
{
    text.get(place).copied().unwrap_or(0)
}

/// Whether the token is `)`, `]` or `&.`
fn is_closer(text: &[u8], token: &Token) -> bool
    ensures { result ≡ is_closer text.now (seen token.now) }
{
    let first = byte_at(text, token.from);
    let second = byte_at(text, token.from.saturating_add(1));
    is_mark(&token.kind) && (first == b')' || first == b']' || (first == b'&' && second == b'.'))
}

/// Whether the token is `.`
fn is_point(text: &[u8], token: &Token) -> bool
    ensures { result ≡ is_point text.now (seen token.now) }
{
    is_mark(&token.kind)
        && byte_at(text, token.from) == b'.'
        && token.to == token.from.saturating_add(1)
}

fn with_blank(mut token: Token, blank: bool) -> Token
    ensures { seen result ≡ tok_with_blank blank (seen token) }
{
    token.blank = blank || token.blank;
    token
}

/// Whether a newline is none.
fn is_none(is_line: bool, closes: bool) -> bool
    ensures { result ≡ (is_line && closes) }
{
    is_line && closes
}

fn has_blank(token: &Token) -> bool
    ensures { result ≡ has_blank (seen token.now) }
{
    token.blank
}

fn is_name_token(token: &Token) -> bool
    ensures { result ≡ tok_name (seen token.now) }
{
    is_name(&token.kind)
}

/// Whether a newline before the token is none, where `has_name` says whether a name follows it.
fn closes_before(text: &[u8], token: &Token, has_name: bool) -> bool
    ensures { result ≡ closes_before text.now (seen token.now) has_name }
{
    is_closer(text, token) || (is_point(text, token) && has_name)
}

/// Puts a blank before the last token, if there is one and `blank` is true.
fn add_blank(tokens: &mut Vec<Token>, blank: bool) -> Result<(), AllocError>
    ensures { IfOk result (λ _. onto tokens.new.items none ≡ with_blank blank (onto tokens.old.items none)) }
{
    if let Some(last) = tokens.pop() {
        tokens.push(with_blank(last, blank))?;
    }
    Ok(())
}

/// Leaves out a newline before the tokens, with the blank before it.
fn leave_out(tokens: &mut Vec<Token>, newline: Token) -> Result<(), AllocError>
    ensures { IfOk result (λ _. onto tokens.new.items none ≡ with_blank (has_blank (seen newline)) (onto tokens.old.items none)) }
{
    let blank = has_blank(&newline);
    add_blank(tokens, blank)
}

/// The tokens in their order, with no newline that is none.
pub fn settled(
    alloc: Global,
    text: &[u8],
    mut raws: Vec<PendingToken>,
) -> Result<Items<Token>, AllocError>
    ensures { IfOk result (λ ts. seen_all ts ≡ settle text.now raws.items none) }
{
    let mut tokens = Vec::new(alloc);
    let mut closes = false;
    let mut has_name = false;
    while let Some(raw) = raws.pop() {
        let PendingToken { token, is_line } = raw;
        if is_none(is_line, closes) {
            leave_out(&mut tokens, token)?;
        } else {
            closes = closes_before(text, &token, has_name);
            has_name = is_name_token(&token);
            tokens.push(token)?;
        }
    }
    tokens.reverse();
    Ok(Items::from_vec(tokens))
}

//! Lists of words, and comments of many lines.
ghost use Rattle.std.specs.Prelude.{◌≡◌, ◌≤◌, ◌<◌, ◌++◌, ℕ, true, false, length, take, drop, map, List, [], ◌∷◌, option_map, MatchOption, codes, Option, None, Some, IfOk};
ghost use Rattle.ruby_lexer.specs.Bytes.{from_first};
ghost use Rattle.ruby_lexer.specs.Forms.{is_fresh};
ghost use Rattle.ruby_lexer.specs.Pieces.{comment, seen_kind};
ghost use Rattle.ruby_lexer.specs.Texts.{is_gap, opens_list, list_kind, cells, word_list, list_at, after_line, block_comment_at};
ghost use Rattle.ruby_lexer.specs.Views.{Reads, Gives, seen_piece};

use crate::bytes::{begins_with, find, line_run, starts};
use crate::cursor::Cursor;
use crate::piece::Piece;
use crate::token::TokenKind;
use bs_outside::{Bytes, Items};
use std::alloc::{AllocError, Global};
use std::mem;

/// Whether the byte, before the text, stands between words.
fn is_gap(byte: u8, text: &[u8]) -> bool
    ensures { result ≡ is_gap byte text.now }
{
    byte == b' '
        || byte == b'\t'
        || byte == b'\n'
        || ((byte == b'\r' || byte == b'\\') && begins_with(b'\n', text))
}

/// Adds the word to the words, if it is not empty.
fn add_word(words: &mut Vec<Bytes>, word: Vec<u8>) -> Result<(), AllocError>
    ensures { IfOk result (λ _. (fs : List (List ℕ)) → words.old.items ++ word_list (word.items, fs) ≡ words.new.items ++ fs) }
{
    if !word.is_empty() {
        words.push(Bytes::from_vec(word))?;
    }
    Ok(())
}

/// The words between blanks and newlines.
fn words(alloc: Global, text: &[u8]) -> Result<Items<Bytes>, AllocError>
    ensures { IfOk result (λ fs. fs ≡ word_list (cells text.now)) }
{
    let mut found = Vec::new(alloc);
    let mut word = Vec::new(alloc);
    let mut left = text;
    while let [byte, tail @ ..] = left {
        left = tail;
        if is_gap(*byte, tail) {
            let whole = mem::replace(&mut word, Vec::new(alloc));
            add_word(&mut found, whole)?;
        } else {
            word.push(*byte)?;
        }
    }
    add_word(&mut found, word)?;
    Ok(Items::from_vec(found))
}

/// The kind of a list, by the letter behind `%`.
fn list_kind(letter: u8, words: Items<Bytes>) -> TokenKind
    ensures { seen_kind result ≡ list_kind letter words }
{
    if letter == b'w' {
        TokenKind::Words(words)
    } else {
        TokenKind::Symbols(words)
    }
}

/// Whether a list of words is opened behind `%`.
fn opens_list(text: &[u8]) -> bool
    ensures { result ≡ opens_list text.now }
{
    match text {
        [] => false,
        [letter, tail @ ..] => (*letter == b'w' || *letter == b'i') && begins_with(b'[', tail),
    }
}

impl Cursor<'_> {
    /// The place of the first `]`, if there is one.
    fn list_end(&mut self) -> Option<usize>
        ensures found { from_first (93 ∷ []) self.old.rest.now ≡ option_map (λ n. drop n self.old.rest.now) result }
        ensures fits { MatchOption result (Unit {0}) (λ n. n < length self.old.rest.now) }
        ensures rest { self.new.rest.now ≡ self.old.rest.now }
        ensures text { self.new.text.now ≡ self.old.text.now }
    {
        if self.no_list_end {
            return None;
        }
        let place = find(b"]", self.rest);
        if place.is_none() {
            self.no_list_end = true;
        }
        place
    }

    /// The place of the first newline before `=end`, if there is one.
    fn comment_end(&mut self) -> Option<usize>
        ensures found { from_first (10 ∷ codes "=end") self.old.rest.now ≡ option_map (λ n. drop n self.old.rest.now) result }
        ensures fits { MatchOption result (Unit {0}) (λ n. n < length self.old.rest.now) }
        ensures rest { self.new.rest.now ≡ self.old.rest.now }
        ensures text { self.new.text.now ≡ self.old.text.now }
    {
        if self.no_comment_end {
            return None;
        }
        let place = find(b"\n=end", self.rest);
        if place.is_none() {
            self.no_comment_end = true;
        }
        place
    }
}

impl Cursor<'_> {
    /// Behind `%`: a list of words.
    #[tactic(auto, unfolding(crate::specs::Texts::list_at), using(crate::proofs::Places::list_first))]
    pub fn list(&mut self) -> Result<Option<Piece>, AllocError>
        ensures value { Gives seen_piece result self.new.rest.now (list_at self.old.rest.now) }
        ensures none { result ≡ Ok None → self.new.rest.now ≡ self.old.rest.now }
        ensures text { self.new.text.now ≡ self.old.text.now }
    {
        let rest = self.rest;
        if !opens_list(rest) {
            return Ok(None);
        }
        let Some(place) = self.list_end() else {
            return Ok(None);
        };
        let body = &rest[2..];
        let count = body.len().saturating_sub(rest[place..].len());
        let words = words(self.alloc, &body[..count])?;
        self.bump(place);
        self.bump(1);
        Ok(Some(Piece::Token(list_kind(rest[0], words))))
    }

    /// Lines from `=begin` to `=end`.
    #[tactic(auto, unfolding(crate::specs::Texts::block_comment_at))]
    pub fn block_comment(&mut self) -> Option<Piece>
        ensures value { Reads seen_piece result self.new.rest.now (block_comment_at (is_fresh self.old.text.now self.old.rest.now) self.old.rest.now) }
        ensures none { result ≡ None → self.new.rest.now ≡ self.old.rest.now }
        ensures text { self.new.text.now ≡ self.old.text.now }
    {
        if !(self.is_fresh() && starts(b"=begin", self.rest)) {
            return None;
        }
        let place = self.comment_end()?;
        self.bump(place);
        self.bump(1);
        self.line_end();
        Some(Piece::Comment)
    }

    /// Goes on to the next line.
    fn line_end(&mut self)
        ensures rest { self.new.rest.now ≡ after_line self.old.rest.now }
        ensures text { self.new.text.now ≡ self.old.text.now }
    {
        let count = line_run(self.rest);
        self.bump(count);
        if !self.rest.is_empty() {
            self.bump(1);
        }
    }
}

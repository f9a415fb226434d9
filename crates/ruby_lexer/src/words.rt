//! Names and reserved words.
ghost use Rattle.std.specs.Prelude.{◌≡◌, ◌≤◌, ◌<◌, ◌+◌, suc, length, take, drop, Option, option_map};
ghost use Rattle.ruby_lexer.specs.Bytes.{begins, begins_with, is_small, is_capital, is_letter};
ghost use Rattle.ruby_lexer.specs.Words.{ends_name, tail_length, name_of, after_name, one_colon, is_forbidden, is_reserved, reserved_kind, word_kind, is_special};
ghost use Rattle.ruby_lexer.specs.Pieces.{seen_kind};

use crate::bytes::{begins_with, is_in, word_run};
use crate::class::{is_capital, is_letter, is_small};
use crate::state::WordContext;
use crate::token::TokenKind;

/// The reserved words.
const KEYWORDS: [&[u8]; 33] = [
    b"and",
    b"begin",
    b"break",
    b"case",
    b"class",
    b"def",
    b"do",
    b"else",
    b"elsif",
    b"end",
    b"ensure",
    b"false",
    b"if",
    b"module",
    b"next",
    b"nil",
    b"not",
    b"or",
    b"rescue",
    b"retry",
    b"return",
    b"self",
    b"super",
    b"then",
    b"true",
    b"unless",
    b"until",
    b"when",
    b"while",
    b"yield",
    b"__FILE__",
    b"__LINE__",
    b"__dir__",
];

/// The reserved words that stand for nothing here.
const FORBIDDEN: [&[u8]; 9] = [
    b"for",
    b"in",
    b"alias",
    b"undef",
    b"redo",
    b"BEGIN",
    b"END",
    b"defined?",
    b"__ENCODING__",
];

/// Whether `?` or `!` stands at the front, and no `=` behind it.
fn ends_name(text: &[u8]) -> bool
    ensures { result ≡ ends_name text.now }
{
    match text {
        [] => false,
        [byte, tail @ ..] => (*byte == b'?' || *byte == b'!') && !begins_with(b'=', tail),
    }
}

/// How many bytes of a name follow its first letter.
pub fn tail_length(text: &[u8]) -> usize
    ensures count { result ≡ tail_length text.now }
    ensures fits { result ≤ length text.now }
{
    let count = word_run(text);
    if ends_name(&text[count..]) {
        count + 1
    } else {
        count
    }
}

/// How long the name is whose first letter stands at the front.
pub fn name_length(text: &[u8]) -> usize
    requires { 0 < length text.now }
    ensures name { take result text.now ≡ name_of text.now }
    ensures rest { drop result text.now ≡ after_name text.now }
    ensures fits { result ≤ length text.now }
    ensures some { 0 < result }
{
    1 + tail_length(&text[1..])
}

/// Whether the text begins with a small letter or `_`.
pub fn begins_small(text: &[u8]) -> bool
    ensures { result ≡ begins is_small text.now }
{
    match text {
        [] => false,
        [byte, ..] => is_small(*byte),
    }
}

/// Whether the text begins with a capital letter.
fn begins_capital(text: &[u8]) -> bool
    ensures { result ≡ begins is_capital text.now }
{
    match text {
        [] => false,
        [byte, ..] => is_capital(*byte),
    }
}

/// Whether the text begins with a letter or `_`.
pub fn begins_letter(text: &[u8]) -> bool
    ensures { result ≡ begins is_letter text.now }
{
    match text {
        [] => false,
        [byte, ..] => is_letter(*byte),
    }
}

/// Whether the text begins with what makes a global name with `$`.
pub fn begins_special(text: &[u8]) -> bool
    ensures { result ≡ begins is_special text.now }
{
    match text {
        [] => false,
        [byte, ..] => *byte == b'0' || *byte == b':' || *byte == b'"',
    }
}

/// Whether one `:` stands at the front, and no second one.
pub fn one_colon(text: &[u8]) -> bool
    ensures { result ≡ one_colon text.now }
{
    begins_with(b':', text) && !begins_with(b':', text.get(1..).unwrap_or(&[]))
}

#[tactic(auto, unfolding(crate::specs::Words::is_forbidden))]
fn is_forbidden(word: &[u8]) -> bool
    ensures { result ≡ is_forbidden word.now }
{
    is_in(word, &FORBIDDEN)
}

#[tactic(auto, unfolding(crate::specs::Words::is_reserved))]
fn is_reserved(word: &[u8]) -> bool
    ensures { result ≡ is_reserved word.now }
{
    is_in(word, &KEYWORDS) || is_in(word, &FORBIDDEN)
}

/// What a reserved word is before the rest of the text, if a token begins there.
fn reserved_kind(before: WordContext, word: &[u8], rest: &[u8]) -> Option<TokenKind>
    ensures { option_map seen_kind result ≡ reserved_kind before word.now rest.now }
{
    match before {
        WordContext::Plain => {
            if is_forbidden(word) {
                None
            } else {
                Some(TokenKind::Keyword)
            }
        }
        WordContext::Dot => Some(TokenKind::Name),
        WordContext::Def => {
            if word == b"self".as_slice() && begins_with(b'.', rest) {
                Some(TokenKind::Keyword)
            } else {
                Some(TokenKind::Name)
            }
        }
    }
}

/// What a word is before the rest of the text, if a token begins there.
pub fn word_kind(before: WordContext, word: &[u8], rest: &[u8]) -> Option<TokenKind>
    ensures { option_map seen_kind result ≡ word_kind before word.now rest.now }
{
    if is_reserved(word) {
        return reserved_kind(before, word, rest);
    }
    if begins_capital(word) {
        Some(TokenKind::Constant)
    } else {
        Some(TokenKind::Name)
    }
}

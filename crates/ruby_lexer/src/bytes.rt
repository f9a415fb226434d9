//! Bytes at the front of a text.
ghost use Rattle.std.specs.Prelude.{◌≡◌, true, ◌≤◌, ◌<◌, ◌==◌, nat_eq, length, take, drop, map, option_map, MatchOption};
ghost use Rattle.ruby_lexer.specs.Bytes.{is_word, is_inline, begins, begins_with, run, same, is_in, starts, from_first};
ghost use Rattle.ruby_lexer.specs.Numbers.{is_hex};

use crate::class::{is_hex, is_word};

/// How many letters, digits and `_` the text begins with.
pub fn word_run(text: &[u8]) -> usize
    ensures count { result ≡ run is_word text.now }
    ensures fits { result ≤ length text.now }
{
    let mut left = text;
    let mut count = 0;
    while let [byte, tail @ ..] = left {
        if !is_word(*byte) {
            return count;
        }
        count += 1;
        left = tail;
    }
    count
}

/// How many bytes stand before the end of the line.
pub fn line_run(text: &[u8]) -> usize
    ensures count { result ≡ run is_inline text.now }
    ensures fits { result ≤ length text.now }
{
    let mut left = text;
    let mut count = 0;
    while let [byte, tail @ ..] = left {
        if *byte == b'\n' {
            return count;
        }
        count += 1;
        left = tail;
    }
    count
}

/// How many hexadecimal digits the text begins with.
pub fn hex_run(text: &[u8]) -> usize
    ensures count { result ≡ run is_hex text.now }
    ensures fits { result ≤ length text.now }
{
    let mut left = text;
    let mut count = 0;
    while let [byte, tail @ ..] = left {
        if !is_hex(*byte) {
            return count;
        }
        count += 1;
        left = tail;
    }
    count
}

/// Whether the text begins with the byte.
pub fn begins_with(byte: u8, text: &[u8]) -> bool
    ensures { result ≡ begins_with byte text.now }
{
    match text {
        [] => false,
        [first, ..] => *first == byte,
    }
}

/// Whether the text begins with the part.
pub fn starts(part: &[u8], text: &[u8]) -> bool
    ensures value { result ≡ starts part.now text.now }
    ensures fits { result ≡ true → length part.now ≤ length text.now }
{
    match part {
        [] => true,
        [first, others @ ..] => match text {
            [] => false,
            [byte, tail @ ..] => *byte == *first && starts(others, tail),
        },
    }
}

/// Whether the word is one of the table.
pub fn is_in(word: &[u8], table: &[&[u8]]) -> bool
    ensures { result ≡ is_in word.now (map (λ m. m.now) table.now) }
{
    let mut left = table;
    while let [entry, tail @ ..] = left {
        if word == *entry {
            return true;
        }
        left = tail;
    }
    false
}

/// The place of the first part like this in the text.
pub fn find(part: &[u8], text: &[u8]) -> Option<usize>
    ensures found { from_first part.now text.now ≡ option_map (λ n. drop n text.now) result }
    ensures fits { MatchOption result (Unit {0}) (λ n. n < length text.now) }
{
    let mut left = text;
    let mut place = 0;
    while let [_, tail @ ..] = left {
        if starts(part, left) {
            return Some(place);
        }
        place += 1;
        left = tail;
    }
    None
}

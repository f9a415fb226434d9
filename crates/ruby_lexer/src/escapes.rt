//! What a backslash gives in double quotes.
ghost use Rattle.std.specs.Prelude.{◌≡◌, ◌≤◌, ◌<◌, ◌+◌, length, take, drop, Option, MatchOption, IfOk, [], ◌∷◌};
ghost use Rattle.ruby_lexer.specs.Bytes.{Bytes as ByteList};
ghost use Rattle.ruby_lexer.specs.Texts.{escape, unicode_escape, digits_to_brace, is_alphanumeric, encoded, scalar_value, escaped_byte};
ghost use Rattle.ruby_lexer.specs.Views.{Gives, same_bytes};

use crate::bytes::{begins_with, hex_run};
use crate::class::{is_capital, is_digit, is_small};
use crate::cursor::Cursor;
use crate::numbers::digit_value;
use bs_outside::Bytes;
use std::alloc::{AllocError, Global};

/// The byte that a letter or a digit behind a backslash gives.
fn escaped_byte(byte: u8) -> Option<u8>
    ensures { result ≡ escaped_byte byte }
{
    match byte {
        b'n' => Some(b'\n'),
        b't' => Some(b'\t'),
        b'r' => Some(b'\r'),
        b'0' => Some(0),
        b'e' => Some(27),
        b's' => Some(b' '),
        b'a' => Some(7),
        b'b' => Some(8),
        b'v' => Some(11),
        b'f' => Some(12),
        _ => None,
    }
}

/// The number that hexadecimal digits spell, where it is below the end of Unicode.
fn scalar_value(digits: &[u8]) -> Option<u32>
    ensures value { result ≡ scalar_value 0 digits.now }
    ensures fits { MatchOption result (Unit {0}) (λ v. v < 1114112) }
{
    let mut left = digits;
    let mut value = 0u32;
    while let [byte, tail @ ..] = left {
        let next = value * 16 + u32::from(digit_value(*byte));
        if next >= 1114112 {
            return None;
        }
        value = next;
        left = tail;
    }
    Some(value)
}

/// The bytes of the character.
fn encoded(alloc: Global, value: Option<u32>) -> Result<Option<Bytes>, AllocError>
    requires { MatchOption value (Unit {0}) (λ v. v < 1114112) }
    ensures { (r : ByteList) → Gives same_bytes result r (encoded r value) }
{
    let Some(value) = value else {
        return Ok(None);
    };
    let Some(character) = char::from_u32(value) else {
        return Ok(None);
    };
    let mut text = String::new(alloc);
    text.push(character)?;
    let bytes = Bytes::new(alloc, text.as_bytes())?;
    Ok(Some(bytes))
}

fn one_byte(alloc: Global, byte: u8) -> Result<Bytes, AllocError>
    ensures { IfOk result (λ f. f ≡ byte ∷ []) }
{
    let mut bytes = Vec::new(alloc);
    bytes.push(byte)?;
    Ok(Bytes::from_vec(bytes))
}

impl Cursor<'_> {
    /// Behind `\u`: four hexadecimal digits, or some in braces, of one scalar value.
    #[tactic(auto, unfolding(crate::specs::Texts::unicode_escape))]
    fn unicode_escape(&mut self) -> Result<Option<Bytes>, AllocError>
        ensures value { Gives same_bytes result self.new.rest.now (unicode_escape self.old.rest.now) }
        ensures text { self.new.text.now ≡ self.old.text.now }
    {
        if begins_with(b'{', self.rest) {
            self.bump(1);
            return self.digits_to_brace();
        }
        if hex_run(self.rest) < 4 {
            return Ok(None);
        }
        let value = scalar_value(&self.rest[..4]);
        self.bump(4);
        encoded(self.alloc, value)
    }

    /// Behind `\u{`: hexadecimal digits and `}`.
    fn digits_to_brace(&mut self) -> Result<Option<Bytes>, AllocError>
        ensures value { Gives same_bytes result self.new.rest.now (digits_to_brace self.old.rest.now) }
        ensures text { self.new.text.now ≡ self.old.text.now }
    {
        let count = hex_run(self.rest);
        let has_digits = 0 < count;
        let is_closed = begins_with(b'}', &self.rest[count..]);
        if !(has_digits && is_closed) {
            return Ok(None);
        }
        let value = scalar_value(&self.rest[..count]);
        self.bump(count);
        self.bump(1);
        encoded(self.alloc, value)
    }

    /// What a backslash before this place gives.
    #[tactic(auto, unfolding(crate::specs::Texts::escape))]
    pub fn escape(&mut self) -> Result<Option<Bytes>, AllocError>
        ensures value { Gives same_bytes result self.new.rest.now (escape self.old.rest.now) }
        ensures text { self.new.text.now ≡ self.old.text.now }
    {
        let rest = self.rest;
        let [byte, _tail @ ..] = rest else {
            return Ok(None);
        };
        self.bump(1);
        if *byte == b'u' {
            return self.unicode_escape();
        }
        if is_alphanumeric(*byte) {
            let Some(given) = escaped_byte(*byte) else {
                return Ok(None);
            };
            let bytes = one_byte(self.alloc, given)?;
            return Ok(Some(bytes));
        }
        if *byte == b'\n' {
            return Ok(Some(Bytes::from_vec(Vec::new(self.alloc))));
        }
        let bytes = one_byte(self.alloc, *byte)?;
        Ok(Some(bytes))
    }
}

/// A letter or a digit.
fn is_alphanumeric(byte: u8) -> bool
    ensures { result ≡ is_alphanumeric byte }
{
    is_digit(byte) || (is_small(byte) && byte != b'_') || is_capital(byte)
}

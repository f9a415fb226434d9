//! Whole numbers.
ghost use Rattle.std.specs.Prelude.{◌≡◌, ◌≤◌, ◌<◌, ◌+◌, ◌^◌, length, take, drop, ℕ, Option, Some, None, MatchOption, option_map, pos, false};
ghost use Rattle.ruby_lexer.specs.Bytes.{begins, is_digit};
ghost use Rattle.ruby_lexer.specs.Pieces.{token, integer};
ghost use Rattle.ruby_lexer.specs.Numbers.{digit_value, is_digit_of, digits, after_zero, numeral, begins_fraction, number_of};

use crate::bytes::{begins_with, word_run};
use crate::class::{is_digit, is_hex};

/// The value of a digit or a letter as a digit.
pub fn digit_value(byte: u8) -> u8
    ensures { result ≡ digit_value byte }
{
    if byte <= 57 {
        byte.saturating_sub(48)
    } else if byte <= 90 {
        byte - 55
    } else {
        byte - 87
    }
}

fn is_digit_of(base: u64, byte: u8) -> bool
    ensures { result ≡ is_digit_of base byte }
{
    is_hex(byte) && u64::from(digit_value(byte)) < base
}

/// The number that digits of the base spell, with single `_` between them, where it is at most 2^63 - 1.
/// `value` is that of the digits before, and `had` says whether one stands directly before.
fn digits(base: u64, mut had: bool, mut value: u64, text: &[u8]) -> Option<u64>
    requires base { base ≤ 16 }
    requires small { value < 2 ^ 63 }
    ensures value { result ≡ digits base had value text.now }
    ensures fits { MatchOption result (Unit {0}) (λ n. n < 2 ^ 63) }
{
    let mut left = text;
    while let [byte, tail @ ..] = left {
        left = tail;
        if *byte == b'_' {
            if !had {
                return None;
            }
            had = false;
            continue;
        }
        if !is_digit_of(base, *byte) {
            return None;
        }
        let next = u128::from(value) * u128::from(base) + u128::from(digit_value(*byte));
        if next >= 9223372036854775808 {
            return None;
        }
        value = next as u64;
        had = true;
    }
    if had { Some(value) } else { None }
}

/// The number that stands behind a first `0`.
fn after_zero(text: &[u8]) -> Option<u64>
    ensures value { result ≡ after_zero text.now }
    ensures fits { MatchOption result (Unit {0}) (λ n. n < 2 ^ 63) }
{
    match text {
        [] => Some(0),
        [b'x', tail @ ..] => digits(16, false, 0, tail),
        [b'b', tail @ ..] => digits(2, false, 0, tail),
        [b'o', tail @ ..] => digits(8, false, 0, tail),
        _ => None,
    }
}

/// The number that a digit spells with the bytes behind it.
fn numeral(first: u8, text: &[u8]) -> Option<u64>
    ensures value { result ≡ numeral first text.now }
    ensures fits { MatchOption result (Unit {0}) (λ n. n < 2 ^ 63) }
{
    if first == b'0' {
        after_zero(text)
    } else {
        digits(10, true, u64::from(digit_value(first)), text)
    }
}

fn begins_digit(text: &[u8]) -> bool
    ensures { result ≡ begins is_digit text.now }
{
    match text {
        [] => false,
        [byte, ..] => is_digit(*byte),
    }
}

/// Whether `.` and a digit stand at the front.
fn begins_fraction(text: &[u8]) -> bool
    ensures { result ≡ begins_fraction text.now }
{
    begins_with(b'.', text) && begins_digit(text.get(1..).unwrap_or(&[]))
}

/// The number whose first digit stands at the front, and how many bytes of it follow that digit.
#[tactic(auto, unfolding(crate::specs::Numbers::number_at))]
pub fn number(text: &[u8]) -> Option<(i64, usize)>
    ensures value { number_of text.now ≡ option_map (λ x. (token (integer x.0), drop x.1 (drop 1 text.now))) result }
    ensures fits { MatchOption result (Unit {0}) (λ x. x.1 < length text.now) }
{
    let [first, tail @ ..] = text else {
        return None;
    };
    let count = word_run(tail);
    if begins_fraction(&tail[count..]) {
        return None;
    }
    match numeral(*first, &tail[..count]) {
        None => None,
        Some(value) => Some((value as i64, count)),
    }
}

//! Codes of characters in hexadecimal digits.
ghost use Rattle.std.specs.Prelude.{◌≡◌, ◌≤◌, ◌<◌, MatchResult};
ghost use Rattle.data_text.specs.Json.{hex_value, DigitAt, CodeAt, is_high};
ghost use Rattle.data_text.specs.Reading.{Found, Stopped, HalfAt, least_first, most_first, least_second, most_second};

use crate::blanks::word;
use msgpack_codec::Stop;

/// The value of a hexadecimal digit, and 16 of any other byte.
fn hex_value(byte: u8) -> u32
    ensures { result ≡ hex_value byte }
{
    match byte {
        b'0'..=b'9' => (byte - b'0') as u32,
        b'a'..=b'f' => (byte - 87) as u32,
        b'A'..=b'F' => (byte - 55) as u32,
        _ => 16,
    }
}

/// Reads a hexadecimal digit from `low` to `high`.
fn digit(bytes: &[u8], low: u32, high: u32) -> Result<(u32, &[u8]), Stop>
    requires some { low ≤ high }
    requires few { high < 16 }
    ensures { MatchResult result
        (λ found. Found (DigitAt low high) found.0 bytes.now found.1.now)
        (λ e. Stopped (DigitAt low high) bytes.now e) }
{
    let Some((first, rest)) = bytes.split_first() else {
        return Err(Stop::Short);
    };
    let value = hex_value(*first);
    if value < low || value > high {
        return Err(Stop::Bad(bytes.len()));
    }
    Ok((value, rest))
}

/// The least first digit of such a unit.
fn least_first(low: bool) -> u32
    ensures { result ≡ least_first low }
{
    if low { 13 } else { 0 }
}

/// The greatest first digit of such a unit.
fn most_first(low: bool) -> u32
    ensures { result ≡ most_first low }
{
    if low { 13 } else { 15 }
}

/// The least second digit of such a unit.
fn least_second(low: bool) -> u32
    ensures { result ≡ least_second low }
{
    if low { 12 } else { 0 }
}

/// The greatest second digit of such a unit behind this first one.
fn most_second(low: bool, first: u32) -> u32
    ensures { result ≡ most_second low first }
{
    if !low && first == 13 { 11 } else { 15 }
}

/// Reads four digits: the second half of a surrogate pair, or anything else.
fn unit(bytes: &[u8], low: bool) -> Result<(u32, &[u8]), Stop>
    ensures { MatchResult result
        (λ found. Found (HalfAt low) found.0 bytes.now found.1.now)
        (λ e. Stopped (HalfAt low) bytes.now e) }
{
    let (first, rest) = digit(bytes, least_first(low), most_first(low))?;
    let (second, rest) = digit(rest, least_second(low), most_second(low, first))?;
    let (third, rest) = digit(rest, 0, 15)?;
    let (fourth, rest) = digit(rest, 0, 15)?;
    Ok((first * 4096 + second * 256 + third * 16 + fourth, rest))
}

fn is_high(unit: u32) -> bool
    ensures { result ≡ is_high unit }
{
    unit >= 0xd800 && unit <= 0xdbff
}

/// Reads what follows `\u`: the code of a character, or the first half of a pair and then the second.
pub(crate) fn code(bytes: &[u8]) -> Result<(u32, &[u8]), Stop>
    ensures { MatchResult result
        (λ found. Found CodeAt found.0 bytes.now found.1.now)
        (λ e. Stopped CodeAt bytes.now e) }
{
    let (high, rest) = unit(bytes, false)?;
    if !is_high(high) {
        return Ok((high, rest));
    }
    let (_, rest) = word(rest, b"\\u")?;
    let (low, rest) = unit(rest, true)?;
    Ok((0x10000 + (high - 0xd800) * 0x400 + (low - 0xdc00), rest))
}

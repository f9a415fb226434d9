//! Whole numbers.
ghost use Rattle.std.specs.Prelude.{◌≡◌, ◌≤◌, ◌<◌, ◌^◌, ◌-◌, ◌∷◌, true, MatchResult};
ghost use Rattle.data_text.specs.Json.{is_digit, BeginsNoDigit, MagnitudeAt, NumberAt, minus};
ghost use Rattle.data_text.specs.Reading.{FoundValue, StoppedBy, begins_number};

use msgpack_codec::Stop;

/// The greatest magnitude of a negative number.
const LEAST: u64 = 0x8000_0000_0000_0000;

fn is_digit(byte: u8) -> bool
    ensures { result ≡ is_digit byte }
{
    byte >= b'0' && byte <= b'9'
}

/// Whether a number can begin with this byte.
pub(crate) fn begins_number(byte: u8) -> bool
    ensures { result ≡ begins_number byte }
{
    byte == b'-' || is_digit(byte)
}

/// Reads a number from -2^63 to 2^63 - 1.
pub(crate) fn number(bytes: &[u8]) -> Result<(i64, &[u8]), Stop>
    ensures { MatchResult result
        (λ found. FoundValue NumberAt found.0 bytes.now found.1.now)
        (λ e. StoppedBy BeginsNoDigit NumberAt bytes.now e) }
{
    let Some((first, rest)) = bytes.split_first() else {
        return Err(Stop::Short);
    };
    if *first == b'-' {
        let (size, rest) = magnitude(rest, LEAST)?;
        return Ok((minus(size), rest));
    }
    let (size, rest) = magnitude(bytes, LEAST - 1)?;
    Ok((size as i64, rest))
}

/// Minus a number of at most 2^63.
fn minus(size: u64) -> i64
    requires { size ≤ 2 ^ 63 }
    ensures { result ≡ minus size }
{
    if size == 0 { 0 } else { -1 - (size - 1) as i64 }
}

/// Reads digits, of which the first is no `0` unless it is the only one, as a number up to the limit.
fn magnitude(bytes: &[u8], limit: u64) -> Result<(u64, &[u8]), Stop>
    requires { 9 ≤ limit }
    ensures { MatchResult result
        (λ found. FoundValue (MagnitudeAt limit) found.0 bytes.now found.1.now)
        (λ e. StoppedBy BeginsNoDigit (MagnitudeAt limit) bytes.now e) }
{
    let Some((first, rest)) = bytes.split_first() else {
        return Err(Stop::Short);
    };
    if !is_digit(*first) {
        return Err(Stop::Bad(bytes.len()));
    }
    if *first == b'0' {
        return zero(bytes, rest, limit);
    }
    more_digits(bytes, rest, *first, limit)
}

/// The number 0, behind whose digit no other stands.
fn zero<'a>(bytes: &'a [u8], rest: &'a [u8], limit: u64) -> Result<(u64, &'a [u8]), Stop>
    requires { bytes.now ≡ 48 ∷ rest.now }
    ensures { MatchResult result
        (λ found. FoundValue (MagnitudeAt limit) found.0 bytes.now found.1.now)
        (λ e. StoppedBy BeginsNoDigit (MagnitudeAt limit) bytes.now e) }
{
    let Some((next, _)) = rest.split_first() else {
        return Ok((0, rest));
    };
    if is_digit(*next) {
        return Err(Stop::Bad(rest.len()));
    }
    Ok((0, rest))
}

/// Reads the digits behind the first, which is not `0`.
fn more_digits<'a>(
    bytes: &'a [u8],
    behind: &'a [u8],
    first: u8,
    limit: u64,
) -> Result<(u64, &'a [u8]), Stop>
    requires limit { 9 ≤ limit }
    requires bytes { bytes.now ≡ first ∷ behind.now }
    requires digit { is_digit first ≡ true }
    requires some { 48 < first }
    ensures { MatchResult result
        (λ found. FoundValue (MagnitudeAt limit) found.0 bytes.now found.1.now)
        (λ e. StoppedBy BeginsNoDigit (MagnitudeAt limit) bytes.now e) }
{
    let mut size = (first - b'0') as u64;
    let mut rest = behind;
    while let Some((next, after)) = rest.split_first() {
        if !is_digit(*next) {
            return Ok((size, rest));
        }
        let digit = (*next - b'0') as u64;
        if size > (limit - digit) / 10 {
            return Err(Stop::Bad(rest.len()));
        }
        size = size * 10 + digit;
        rest = after;
    }
    Ok((size, rest))
}

//! Reads whole texts.
ghost use Rattle.std.specs.Prelude.{◌≡◌, ◌≤◌, length, MatchResult, IfOk, IfErr};
ghost use Rattle.msgpack_codec.specs.declared.value.Value.{Value};
ghost use Rattle.data_text.specs.Json.{IsJson, Spells};
ghost use Rattle.data_text.specs.Reading.{StoppedText};
ghost use Rattle.data_text.specs.Lines.{IsFault, newlines, line_at, last_line};
ghost use Rattle.data_text.specs.declared.fault.DataError.TheVariants as error;

use crate::blanks::skip_blanks;
use crate::fault::{DataError, DataFault};
use crate::values::value;
use msgpack_codec::{Stop, Value};
use std::alloc::Global;

/// The most bytes of a data text.
const BYTE_LIMIT: usize = 4_194_304;

/// How many lists and maps may stand in one another.
const LEVELS: u8 = 100;

/// The value of a JSON text, by RFC 8259 with whole numbers alone.
///
/// The text is UTF-8 of at most 4,194,304 bytes. Its numbers have no fraction and no exponent, and are from -2^63 to
/// 2^63 - 1; `-0` is 0. At most 100 lists and objects stand in one another, and no surrogate stands alone. A key that an
/// object repeats keeps its first place and takes the last value.
///
/// The fault of another text is in line 1 where it is too long, and in the line of the first bad byte where it is not
/// UTF-8; else in the first line such that nothing that begins with the lines up to it has a value; and in the line of the
/// last byte where all lines could go on, which is 1 in an empty text. A newline belongs to the line that it ends.
///
/// # Errors
/// `DataError::Fault` where the text has no value, with that line, and `DataError::NoMemory` for want of memory.
pub fn read_json(alloc: Global, text: &[u8]) -> Result<Value, DataError>
    ensures value { IfOk result (λ value. IsJson value text.now) }
    ensures fault { IfErr result (λ e. IsFault text.now e) }
    ensures only { (value : Value) → IsJson value text.now → MatchResult result (λ found. found ≡ value) (λ e. e ≡ error.NoMemory) }
{
    if text.len() > BYTE_LIMIT {
        return Err(fault_in(1));
    }
    if let Err(e) = str::from_utf8(text) {
        return Err(fault_in(line_at(text, e.valid_up_to())));
    }
    match whole(alloc, text) {
        Ok(value) => Ok(value),
        Err(Stop::Short) => Err(fault_in(last_line(text))),
        Err(Stop::Bad(left)) => Err(fault_in(line_at(text, text.len() - left))),
        Err(Stop::NoMemory) => Err(DataError::NoMemory),
    }
}

fn fault_in(line: u64) -> DataError
    ensures { result ≡ error.Fault (record { line = line }) }
{
    DataError::Fault(DataFault { line })
}

/// Reads a value with blanks around it, behind which nothing stands.
fn whole(alloc: Global, bytes: &[u8]) -> Result<Value, Stop>
    ensures { MatchResult result
        (λ value. Spells value bytes.now × ((y : Value) → Spells y bytes.now → y ≡ value))
        (λ e. StoppedText bytes.now e) }
{
    let (value, rest) = value(alloc, skip_blanks(bytes), LEVELS)?;
    let rest = skip_blanks(rest);
    if rest.is_empty() {
        return Ok(value);
    }
    Err(Stop::Bad(rest.len()))
}

/// The line of the byte at this place.
fn line_at(text: &[u8], place: usize) -> u64
    requires { place ≤ length text.now }
    ensures { result ≡ line_at text.now place }
{
    newlines(&text[..place]) + 1
}

/// How many newlines there are.
fn newlines(bytes: &[u8]) -> u64
    ensures count { result ≡ newlines bytes.now }
    ensures few { result ≤ length bytes.now }
{
    let mut count = 0;
    for byte in bytes {
        if *byte == b'\n' {
            count += 1;
        }
    }
    count
}

/// The line of the last byte, and 1 where there is none.
fn last_line(text: &[u8]) -> u64
    ensures { result ≡ last_line text.now }
{
    line_at(text, text.len().saturating_sub(1))
}

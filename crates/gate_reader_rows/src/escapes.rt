//! Strings of Rust.

use std::alloc::{AllocError, Global};

/// Where a reader of a string stands.
#[derive(Clone, Copy)]
enum Place {
    /// Before its opening quote.
    Start,
    /// Between its quotes, in no escape.
    Inside,
    /// Behind a backslash.
    Escape,
    /// Behind `\u`.
    Brace,
    /// Behind `\u{` and the digits of a number.
    Digits(u32),
    /// Behind its closing quote.
    End,
}

/// What one character does.
#[derive(Clone, Copy)]
enum Step {
    Goes(Place),
    Gives(char),
    Faults,
}

/// The text of a string; none where it is no string. Of the escapes it knows `\n`, `\t`, `\r`, `\0`, `\"`, `\\` and `\u{..}`.
pub fn unescaped(alloc: Global, string: &str) -> Result<Option<String>, AllocError> {
    let mut text = String::new(alloc);
    let mut place = Place::Start;
    for letter in string.chars() {
        match step_at(place, letter) {
            Step::Goes(to) => place = to,
            Step::Gives(given) => {
                text.push(given)?;
                place = Place::Inside;
            }
            Step::Faults => return Ok(None),
        }
    }
    match place {
        Place::End => Ok(Some(text)),
        _ => Ok(None),
    }
}

/// What a character does at a place.
fn step_at(place: Place, letter: char) -> Step {
    match (place, letter) {
        (Place::Start, '"') => Step::Goes(Place::Inside),
        (Place::Inside, '"') => Step::Goes(Place::End),
        (Place::Inside, '\\') => Step::Goes(Place::Escape),
        (Place::Inside, _) => Step::Gives(letter),
        (Place::Escape, 'u') => Step::Goes(Place::Brace),
        (Place::Escape, _) => simple(letter),
        (Place::Brace, '{') => Step::Goes(Place::Digits(0)),
        (Place::Digits(code), '}') => match char::from_u32(code) {
            Some(given) => Step::Gives(given),
            None => Step::Faults,
        },
        (Place::Digits(code), _) => digit(code, letter),
        (Place::Start | Place::Brace | Place::End, _) => Step::Faults,
    }
}

/// What a character gives behind a backslash.
fn simple(letter: char) -> Step {
    match letter {
        'n' => Step::Gives('\n'),
        't' => Step::Gives('\t'),
        'r' => Step::Gives('\r'),
        '0' => Step::Gives('\0'),
        '"' | '\\' => Step::Gives(letter),
        _ => Step::Faults,
    }
}

/// One digit more of a code, which has at most six.
fn digit(code: u32, letter: char) -> Step {
    match letter.to_digit(16) {
        Some(digit) if code < 1 << 20 => Step::Goes(Place::Digits(code << 4 | digit)),
        _ => Step::Faults,
    }
}

/// A text as it stands in a string.
pub fn escaped(alloc: Global, text: &[u8]) -> Result<Vec<u8>, AllocError> {
    let mut string = Vec::new(alloc);
    for byte in text {
        match byte {
            b'\n' => string.extend_from_slice(b"\\n")?,
            b'\t' => string.extend_from_slice(b"\\t")?,
            b'\r' => string.extend_from_slice(b"\\r")?,
            b'"' => string.extend_from_slice(b"\\\"")?,
            b'\\' => string.extend_from_slice(b"\\\\")?,
            _ => string.push(*byte)?,
        }
    }
    Ok(string)
}

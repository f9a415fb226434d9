//! Strings.
ghost use Rattle.std.specs.Prelude.{◌≡◌, ◌++◌, ℕ, List, MatchResult, OnOk};
ghost use Rattle.std.specs.Char.{encode_utf8, InScalarRange};
ghost use Rattle.data_text.specs.Json.{CharAt, StringAt, KeyAt, short_escape};
ghost use Rattle.data_text.specs.Reading.{Found, Stopped, Marked, EscapeAt};

use crate::blanks::token;
use crate::units::code;
use bs_outside::Text;
use msgpack_codec::Stop;
use std::alloc::{AllocError, Global};

/// What a byte behind a backslash stands for.
fn short_escape(byte: u8) -> Option<u8>
    ensures { result ≡ short_escape byte }
{
    match byte {
        b'"' | b'\\' | b'/' => Some(byte),
        b'b' => Some(8),
        b'f' => Some(12),
        b'n' => Some(10),
        b'r' => Some(13),
        b't' => Some(9),
        _ => None,
    }
}

/// Reads the text behind an opening quote, and the quote that ends it.
pub(crate) fn string(alloc: Global, bytes: &[u8]) -> Result<(Text, &[u8]), Stop>
    ensures { MatchResult result
        (λ found. Found StringAt found.0 bytes.now found.1.now)
        (λ e. Stopped StringAt bytes.now e) }
{
    let mut text = Vec::new(alloc);
    let mut rest = bytes;
    loop {
        let (last, after) = character(&mut text, rest)?;
        rest = after;
        if last {
            return Ok((Text::from_vec(text), rest));
        }
    }
}

/// Reads a character and puts the bytes that it stands for behind the text, or reads the quote that ends it.
fn character<'a>(text: &mut Vec<u8>, bytes: &'a [u8]) -> Result<(bool, &'a [u8]), Stop>
    ensures { MatchResult result
        (λ found. (piece : List ℕ) × Found (Marked CharAt) (piece, found.0) bytes.now found.1.now × (text.new.items ≡ text.old.items ++ piece))
        (λ e. Stopped (Marked CharAt) bytes.now e) }
{
    let Some((first, rest)) = bytes.split_first() else {
        return Err(Stop::Short);
    };
    if *first == b'"' {
        return Ok((true, rest));
    }
    if *first == b'\\' {
        let ((), rest) = escape(text, rest)?;
        return Ok((false, rest));
    }
    if *first < 32 {
        return Err(Stop::Bad(bytes.len()));
    }
    text.push(*first)?;
    Ok((false, rest))
}

/// Reads what follows a backslash and puts the bytes that it stands for behind the text.
fn escape<'a>(text: &mut Vec<u8>, bytes: &'a [u8]) -> Result<((), &'a [u8]), Stop>
    ensures { MatchResult result
        (λ found. (piece : List ℕ) × Found EscapeAt piece bytes.now found.1.now × (text.new.items ≡ text.old.items ++ piece))
        (λ e. Stopped EscapeAt bytes.now e) }
{
    let Some((first, rest)) = bytes.split_first() else {
        return Err(Stop::Short);
    };
    if *first == b'u' {
        let (code, rest) = code(rest)?;
        push_code(text, code)?;
        return Ok(((), rest));
    }
    let Some(byte) = short_escape(*first) else {
        return Err(Stop::Bad(bytes.len()));
    };
    text.push(byte)?;
    Ok(((), rest))
}

/// Puts a character's bytes behind the text.
fn push_code(text: &mut Vec<u8>, code: u32) -> Result<(), AllocError>
    requires { InScalarRange code }
    ensures { OnOk result (text.new.items ≡ text.old.items ++ encode_utf8 code) }
{
    let Some(character) = char::from_u32(code) else {
        unreachable!();
    };
    let mut bytes = [0; 4];
    text.extend_from_slice(character.encode_utf8(&mut bytes).as_bytes())?;
    Ok(())
}

/// Reads blanks, a string, blanks and a colon.
pub(crate) fn key(alloc: Global, bytes: &[u8]) -> Result<(Text, &[u8]), Stop>
    ensures { MatchResult result
        (λ found. Found KeyAt found.0 bytes.now found.1.now)
        (λ e. Stopped KeyAt bytes.now e) }
{
    let ((), rest) = token(bytes, b'"')?;
    let (text, rest) = string(alloc, rest)?;
    let ((), rest) = token(rest, b':')?;
    Ok((text, rest))
}

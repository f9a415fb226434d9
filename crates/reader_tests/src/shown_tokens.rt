//! Tokens as short texts.
use bs_outside::Bytes;
use ruby_lexer::{LexError, Part, Token, TokenKind, tokens};
use std::alloc::{AllocError, Global};

fn show_number(alloc: Global, out: &mut Vec<u8>, number: i64) -> Result<(), AllocError> {
    let text = format!(in alloc; "{number}")?;
    out.extend_from_slice(text.as_bytes())
}

fn show_bytes(alloc: Global, out: &mut Vec<u8>, bytes: &[u8]) -> Result<(), AllocError> {
    for byte in bytes {
        if *byte == b'\n' {
            out.extend_from_slice(b"|")?;
        } else if 32 <= *byte && *byte < 127 && *byte != b'{' && *byte != b'}' {
            out.push(*byte)?;
        } else {
            out.extend_from_slice(b"<")?;
            show_number(alloc, out, i64::from(*byte))?;
            out.extend_from_slice(b">")?;
        }
    }
    Ok(())
}

fn show_words(alloc: Global, out: &mut Vec<u8>, words: &[Bytes]) -> Result<(), AllocError> {
    let mut is_first = true;
    for word in words {
        if !is_first {
            out.extend_from_slice(b" ")?;
        }
        is_first = false;
        show_bytes(alloc, out, word.as_slice())?;
    }
    out.extend_from_slice(b")")
}

#[cycle(show)]
fn show_parts(
    alloc: Global,
    out: &mut Vec<u8>,
    text: &[u8],
    parts: &[Part],
) -> Result<(), AllocError> {
    for part in parts {
        match part {
            Part::Plain(bytes) => show_bytes(alloc, out, bytes.as_slice())?,
            Part::Code(inner) => {
                out.extend_from_slice(b"{")?;
                show_tokens(alloc, out, text, inner.as_slice())?;
                out.extend_from_slice(b"}")?;
            }
        }
    }
    out.extend_from_slice(b"]")
}

/// What stands before the text of a token without a field.
fn prefix(kind: &TokenKind) -> &'static [u8] {
    match kind {
        TokenKind::Name => b"n:",
        TokenKind::Constant => b"C:",
        TokenKind::Variable => b"v:",
        TokenKind::Global => b"g:",
        TokenKind::Keyword => b"k:",
        TokenKind::Mark => b"m:",
        TokenKind::Newline => b"nl",
        TokenKind::Label(_) => b"l[",
        TokenKind::Literal(_) => b"s[",
        TokenKind::Symbol(_) => b"y:",
        TokenKind::Words(_) => b"w(",
        TokenKind::Symbols(_) => b"i(",
        TokenKind::Integer(_) => b"",
    }
}

#[cycle(show)]
fn show_token(
    alloc: Global,
    out: &mut Vec<u8>,
    text: &[u8],
    token: &Token,
) -> Result<(), AllocError> {
    if token.blank {
        out.extend_from_slice(b"_")?;
    }
    out.extend_from_slice(prefix(&token.kind))?;
    match &token.kind {
        TokenKind::Integer(value) => show_number(alloc, out, *value)?,
        TokenKind::Newline => {}
        TokenKind::Label(parts) => show_parts(alloc, out, text, parts.as_slice())?,
        TokenKind::Literal(parts) => show_parts(alloc, out, text, parts.as_slice())?,
        TokenKind::Symbol(name) => show_bytes(alloc, out, name.as_slice())?,
        TokenKind::Words(words) => show_words(alloc, out, words.as_slice())?,
        TokenKind::Symbols(names) => show_words(alloc, out, names.as_slice())?,
        _ => out.extend_from_slice(text.get(token.from..token.to).unwrap_or(b"?"))?,
    }
    if token.line != 1 {
        out.extend_from_slice(b"@")?;
        show_number(alloc, out, token.line.min(9999) as i64)?;
    }
    Ok(())
}

#[cycle(show)]
fn show_tokens(
    alloc: Global,
    out: &mut Vec<u8>,
    text: &[u8],
    all: &[Token],
) -> Result<(), AllocError> {
    let mut is_first = true;
    for token in all {
        if !is_first {
            out.extend_from_slice(b" ")?;
        }
        is_first = false;
        show_token(alloc, out, text, token)?;
    }
    Ok(())
}

/// The tokens of a text, or `!` and the line of its fault.
pub fn shown(alloc: Global, text: &[u8]) -> Result<Vec<u8>, AllocError> {
    let mut out = Vec::new(alloc);
    match tokens(alloc, text) {
        Ok(all) => show_tokens(alloc, &mut out, text, all.as_slice())?,
        Err(LexError::Fault(fault)) => {
            out.extend_from_slice(b"!")?;
            show_number(alloc, &mut out, fault.line.min(9999) as i64)?;
        }
        Err(LexError::NoMemory) => out.extend_from_slice(b"no memory")?,
    }
    Ok(out)
}

//! The parts of a text in double quotes.
ghost use Rattle.std.specs.Prelude.{◌≡◌, ◌≤◌, ◌<◌, length, List, ℕ, [], ◌∷◌, option_map, IfOk};
ghost use Rattle.ruby_lexer.specs.Pieces.{seen_parts, seen_kind, seen_all, Parts, code};
ghost use Rattle.ruby_lexer.specs.Texts.{plain_parts};
ghost use Rattle.ruby_lexer.specs.Forms.{text_of, opens_code};
ghost use Rattle.ruby_lexer.specs.Settle.{parts_then, symbol_of};
ghost use Rattle.ruby_lexer.specs.Views.{same_bytes};

use crate::bytes::begins_with;
use crate::token::{Part, Token, TokenKind};
use bs_outside::{Bytes, Items};
use std::alloc::{AllocError, Global};

/// Adds a plain part, if there are bytes.
#[tactic(auto, using(crate::proofs::Turns::parts_push, std::proofs::lemmas::Grind::common_steps))]
pub fn add_plain(parts: &mut Vec<Part>, bytes: Vec<u8>) -> Result<(), AllocError>
    ensures { IfOk result (λ _. (qs : Parts) → parts_then parts.new.items qs ≡ parts_then parts.old.items (plain_parts bytes.items qs)) }
{
    if !bytes.as_slice().is_empty() {
        parts.push(Part::Plain(Bytes::from_vec(bytes)))?;
    }
    Ok(())
}

/// Adds code.
#[tactic(auto, using(crate::proofs::Turns::parts_push, std::proofs::lemmas::Grind::common_steps))]
pub fn add_code(parts: &mut Vec<Part>, tokens: Items<Token>) -> Result<(), AllocError>
    ensures { IfOk result (λ _. (qs : Parts) → parts_then parts.new.items qs ≡ parts_then parts.old.items (code (seen_all tokens) qs)) }
{
    parts.push(Part::Code(tokens))?;
    Ok(())
}

/// Whether `#{` stands at the byte, before the text.
pub fn opens_code(byte: u8, text: &[u8]) -> bool
    ensures { result ≡ opens_code byte text.now }
{
    byte == b'#' && begins_with(b'{', text)
}

/// The bytes of parts without code.
fn text_of(alloc: Global, parts: &[Part]) -> Result<Option<Bytes>, AllocError>
    ensures { IfOk result (λ x. option_map same_bytes x ≡ text_of (seen_parts parts.now)) }
{
    let mut bytes = Vec::new(alloc);
    let mut left = parts;
    while let [part, tail @ ..] = left {
        match part {
            Part::Plain(plain) => bytes.extend_from_slice(plain.as_slice())?,
            Part::Code(_) => return Ok(None),
        }
        left = tail;
    }
    Ok(Some(Bytes::from_vec(bytes)))
}

/// The symbol of parts without code, if there are some.
pub fn symbol_of(alloc: Global, parts: Option<Items<Part>>) -> Result<Option<TokenKind>, AllocError>
    ensures { IfOk result (λ x. option_map seen_kind x ≡ symbol_of (option_map seen_parts parts)) }
{
    let Some(parts) = parts else {
        return Ok(None);
    };
    match text_of(alloc, parts.as_slice())? {
        None => Ok(None),
        Some(bytes) => Ok(Some(TokenKind::Symbol(bytes))),
    }
}

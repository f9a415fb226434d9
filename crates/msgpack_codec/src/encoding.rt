//! From values to bytes.
ghost use Rattle.std.specs.Prelude.{◌≡◌, ◌<◌, ◌^◌, ◌∷◌, ◌++◌, length, map, IfOk, OnOk};
ghost use Rattle.std.specs.List.{AllByRecursion, concat};
ghost use Rattle.msgpack_codec.specs.Message.{spelling_of, str_head, sym_head, IsBytes, FitsWithin, IsSpellableScalar, IsScalar, IsSpellable, SpellsMessage};
ghost use Rattle.msgpack_codec.specs.Writing.{pair_spelling_of, PairFits};

use crate::heads::{Head, push_head};
use crate::value::Value;
use bs_outside::Bytes;
use std::alloc::{AllocError, Global};

/// How many lists and maps may stand in one another.
const LEVELS: u8 = 100;

/// The spelling of a value: at most 100 lists and maps stand in one another, each text, symbol, list and map is
/// shorter than 2^32, and in each map no key stands twice and no key is a list or a map.
pub fn encode(alloc: Global, value: &Value) -> Result<Bytes, AllocError>
    requires { IsSpellable value.now }
    ensures { IfOk result (λ bytes. SpellsMessage value.now bytes) }
{
    let mut out = Vec::new(alloc);
    push_value(&mut out, value, LEVELS)?;
    Ok(Bytes::from_vec(out))
}

/// Writes a value in which at most so many lists and maps stand in one another.
#[cycle(push_values)]
fn push_value(out: &mut Vec<u8>, value: &Value, levels: u8) -> Result<(), AllocError>
    requires { FitsWithin IsSpellableScalar levels value.now }
    ensures bytes { OnOk result (out.new.items ≡ out.old.items ++ spelling_of value.now) }
    ensures ranges { OnOk result (FitsWithin IsScalar levels value.now) }
{
    match value {
        Value::Nil => push_head(out, Head::Nil)?,
        Value::Bool(truth) => push_head(out, Head::Bool(*truth))?,
        Value::Int(number) => push_head(out, Head::Int(*number))?,
        Value::Str(text) => push_text(out, text.as_slice())?,
        Value::Sym(name) => push_symbol(out, name.as_slice())?,
        Value::List(items) => {
            push_head(out, Head::List(items.len() as u32))?;
            push_items(out, items.as_slice(), levels - 1)?;
        }
        Value::Map(pairs) => {
            push_head(out, Head::Map(pairs.len() as u32))?;
            push_pairs(out, pairs.as_slice(), levels - 1)?;
        }
    }
    Ok(())
}

#[cycle(push_values)]
fn push_items(out: &mut Vec<u8>, items: &[Value], levels: u8) -> Result<(), AllocError>
    requires { AllByRecursion (FitsWithin IsSpellableScalar levels) items.now }
    ensures bytes { OnOk result (out.new.items ≡ out.old.items ++ concat (map spelling_of items.now)) }
    ensures ranges { OnOk result (AllByRecursion (FitsWithin IsScalar levels) items.now) }
{
    for item in items {
        push_value(out, item, levels)?;
    }
    Ok(())
}

#[cycle(push_values)]
fn push_pairs(out: &mut Vec<u8>, pairs: &[(Value, Value)], levels: u8) -> Result<(), AllocError>
    requires { AllByRecursion (PairFits IsSpellableScalar levels) pairs.now }
    ensures bytes { OnOk result (out.new.items ≡ out.old.items ++ concat (map pair_spelling_of pairs.now)) }
    ensures ranges { OnOk result (AllByRecursion (PairFits IsScalar levels) pairs.now) }
{
    for pair in pairs {
        push_value(out, &pair.0, 0)?;
        push_value(out, &pair.1, levels)?;
    }
    Ok(())
}

/// Writes a text.
fn push_text(out: &mut Vec<u8>, bytes: &[u8]) -> Result<(), AllocError>
    requires { length bytes.now < 2 ^ 32 }
    ensures written { OnOk result (out.new.items ≡ out.old.items ++ (str_head (length bytes.now) ++ bytes.now)) }
    ensures small { IsBytes bytes.now }
{
    push_head(out, Head::Str(bytes.len() as u32))?;
    out.extend_from_slice(bytes)?;
    Ok(())
}

/// Writes a symbol, an extension of type 0.
fn push_symbol(out: &mut Vec<u8>, bytes: &[u8]) -> Result<(), AllocError>
    requires { length bytes.now < 2 ^ 32 }
    ensures written { OnOk result (out.new.items ≡ out.old.items ++ (sym_head (length bytes.now) ++ 0 ∷ bytes.now)) }
    ensures small { IsBytes bytes.now }
{
    push_head(out, Head::Sym(bytes.len() as u32))?;
    out.push(0)?;
    out.extend_from_slice(bytes)?;
    Ok(())
}

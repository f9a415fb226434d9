//! From bytes to values.
ghost use Rattle.std.specs.Prelude.{◌≡◌, ℕ, ◌+◌, ◌^◌, ◌<◌, ◌≤◌, false, length, take, IfOk, IfErr, MatchResult};
ghost use Rattle.msgpack_codec.specs.declared.value.Value.{Value};
ghost use Rattle.msgpack_codec.specs.Message.{SpellsMessage, Decodes, IsSpellable};
ghost use Rattle.msgpack_codec.specs.Reading.{Found, Stopped};
ghost use Rattle.msgpack_codec.specs.Heads.{is_nest_head};
ghost use Rattle.msgpack_codec.specs.Values.{IsSpelledScalar, ValueAt, KeyAt, ListAt, MapAt, ScalarAt, AreBytes, StopsKey};

use crate::heads::{Head, read_head};
use crate::live::live_length;
use crate::stop::{Stop, Unread};
use crate::used::Used;
use crate::value::Value;
use bs_outside::{Items, Text};
use std::alloc::Global;

/// How many lists and maps may stand in one another.
const LEVELS: u8 = 100;

/// The value that the bytes spell.
///
/// `Short` says that they are a proper prefix of a spelling, and `Malformed` that they are none: `at` is the length
/// of the longest prefix that begins a spelling, with at most 100 lists and maps in one another and no key twice.
pub fn decode(alloc: Global, bytes: &[u8]) -> Result<Value, Unread>
    ensures answer { Decodes bytes.now result }
    // What is a spelling is read, unless memory runs out.
    ensures only { (value : Value) → SpellsMessage value bytes.now → MatchResult result (λ found. found ≡ value) (λ e. e ≡ Unread.NoMemory) }
    // What is read can be written again.
    ensures again { IfOk result (λ value. IsSpellable value) }
{
    match value(alloc, bytes, LEVELS) {
        Ok((value, rest)) => {
            if rest.is_empty() {
                return Ok(value);
            }
            Err(Unread::Malformed {
                at: bytes.len() - rest.len(),
            })
        }
        Err(Stop::Short) => Err(Unread::Short),
        Err(Stop::Bad(left)) => Err(Unread::Malformed {
            at: bytes.len() - left,
        }),
        Err(Stop::NoMemory) => Err(Unread::NoMemory),
    }
}

/// Reads the value at the front, in which at most `levels` lists and maps stand in one another.
#[cycle(values)]
fn value(alloc: Global, bytes: &[u8], levels: u8) -> Result<(Value, &[u8]), Stop>
    ensures { MatchResult result
        (λ found. Found (ValueAt levels) found.0 bytes.now found.1.now)
        (λ e. Stopped (ValueAt levels) bytes.now e) }
{
    let (head, rest) = read_head(bytes, levels > 0)?;
    match head {
        Head::List(count) => list(alloc, rest, count, levels - 1),
        Head::Map(count) => map(alloc, rest, count, levels - 1),
        _ => scalar_body(alloc, rest, head),
    }
}

/// Reads what follows the head of a value that is no list and no map.
fn scalar_body(alloc: Global, bytes: &[u8], head: Head) -> Result<(Value, &[u8]), Stop>
    requires { is_nest_head head ≡ false }
    ensures { MatchResult result
        (λ found. Found (ScalarAt head) found.0 bytes.now found.1.now)
        (λ e. Stopped (ScalarAt head) bytes.now e) }
{
    match head {
        Head::Nil => Ok((Value::Nil, bytes)),
        Head::Bool(truth) => Ok((Value::Bool(truth), bytes)),
        Head::Int(number) => Ok((Value::Int(number), bytes)),
        Head::Str(length) => {
            let (text, rest) = read_text(alloc, bytes, length)?;
            Ok((Value::Str(text), rest))
        }
        Head::Sym(length) => symbol(alloc, bytes, length),
        Head::List(_) | Head::Map(_) => unreachable!(),
    }
}

/// Reads the type of an extension, which is 0 for symbols, and so many bytes.
fn symbol(alloc: Global, bytes: &[u8], length: u32) -> Result<(Value, &[u8]), Stop>
    ensures { MatchResult result
        (λ found. Found (ScalarAt (Head.Sym length)) found.0 bytes.now found.1.now)
        (λ e. Stopped (ScalarAt (Head.Sym length)) bytes.now e) }
{
    let Some((first, rest)) = bytes.split_first() else {
        return Err(Stop::Short);
    };
    if *first != 0 {
        return Err(Stop::Bad(bytes.len()));
    }
    let (name, rest) = read_text(alloc, rest, length)?;
    Ok((Value::Sym(name), rest))
}

/// Reads so many bytes.
fn read_text(alloc: Global, bytes: &[u8], length: u32) -> Result<(Text, &[u8]), Stop>
    ensures { MatchResult result
        (λ found. Found (AreBytes length) found.0 bytes.now found.1.now)
        (λ e. Stopped (AreBytes length) bytes.now e) }
{
    let length = length as usize;
    if bytes.len() < length {
        return Err(Stop::Short);
    }
    let (front, rest) = bytes.split_at(length);
    Ok((Text::new(alloc, front)?, rest))
}

/// Reads the items of a list.
#[cycle(values)]
fn list(alloc: Global, bytes: &[u8], count: u32, levels: u8) -> Result<(Value, &[u8]), Stop>
    ensures { MatchResult result
        (λ found. Found (ListAt levels count) found.0 bytes.now found.1.now)
        (λ e. Stopped (ListAt levels count) bytes.now e) }
{
    let mut items = Vec::new(alloc);
    let mut rest = bytes;
    for _ in 0..count {
        let (item, after) = value(alloc, rest, levels)?;
        items.push(item)?;
        rest = after;
    }
    Ok((Value::List(Items::from_vec(items)), rest))
}

/// Reads the pairs of a map.
#[cycle(values)]
fn map(alloc: Global, bytes: &[u8], count: u32, levels: u8) -> Result<(Value, &[u8]), Stop>
    ensures { MatchResult result
        (λ found. Found (MapAt levels count) found.0 bytes.now found.1.now)
        (λ e. Stopped (MapAt levels count) bytes.now e) }
{
    let mut pairs = Vec::new(alloc);
    let mut used = Used::new(alloc);
    let mut rest = bytes;
    for _ in 0..count {
        let (key, after) = key(alloc, rest, &used)?;
        used.add(&rest[..rest.len() - after.len()])?;
        let (value, after) = value(alloc, after, levels)?;
        pairs.push((key, value))?;
        rest = after;
    }
    Ok((Value::Map(Items::from_vec(pairs)), rest))
}

/// Reads a key that is not used.
fn key<'a>(alloc: Global, bytes: &'a [u8], used: &Used<'a>) -> Result<(Value, &'a [u8]), Stop>
    requires { length used.now < 2 ^ 32 }
    ensures { MatchResult result
        (λ found. Found (KeyAt used.now) found.0 bytes.now found.1.now)
        (λ e. Stopped (KeyAt used.now) bytes.now e) }
{
    match scalar(alloc, bytes) {
        Ok((key, rest)) => {
            if used.has(&bytes[..bytes.len() - rest.len()]) {
                return Err(key_stop(alloc, bytes, rest.len() + 1, used));
            }
            Ok((key, rest))
        }
        Err(Stop::Short) => Err(key_stop(alloc, bytes, 0, used)),
        Err(Stop::Bad(left)) => Err(key_stop(alloc, bytes, left, used)),
        Err(Stop::NoMemory) => Err(Stop::NoMemory),
    }
}

/// Where a key stops that does so at the latest where so many bytes are left.
fn key_stop(alloc: Global, bytes: &[u8], left: usize, used: &Used<'_>) -> Stop
    requires few { length used.now < 2 ^ 32 }
    requires stops { StopsKey used.now bytes.now left }
    ensures { Stopped (KeyAt used.now) bytes.now result }
{
    match live_length(alloc, &bytes[..bytes.len() - left], used) {
        Err(_) => Stop::NoMemory,
        Ok(live) => {
            if live == bytes.len() {
                return Stop::Short;
            }
            Stop::Bad(bytes.len() - live)
        }
    }
}

/// Reads a value that is no list and no map.
fn scalar(alloc: Global, bytes: &[u8]) -> Result<(Value, &[u8]), Stop>
    ensures { MatchResult result
        (λ found. Found IsSpelledScalar found.0 bytes.now found.1.now)
        (λ e. Stopped IsSpelledScalar bytes.now e) }
{
    let (head, rest) = read_head(bytes, false)?;
    scalar_body(alloc, rest, head)
}

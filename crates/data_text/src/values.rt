//! Values of JSON.
ghost use Rattle.std.specs.Prelude.{◌≡◌, ◌≤◌, ◌<◌, MatchResult};
ghost use Rattle.data_text.specs.Json.{ValueAt, ElementAt, RunAt, ScalarAt, BeginsNoDigit};
ghost use Rattle.data_text.specs.Reading.{Found, FoundValue, Stopped, StoppedBy, Marked, ListAt, MapAt, EntriesAt, BeginsNoOther};

use crate::blanks::{delimiter, skip_blanks, word};
use crate::numbers::{begins_number, number};
use crate::pairs::pairs_of;
use crate::strings::{key, string};
use bs_outside::{Items, Text};
use indexmap::IndexMap;
use msgpack_codec::{Stop, Value};
use std::alloc::Global;

/// Reads a value, in which at most `levels` lists and maps stand in one another.
#[cycle(values)]
pub(crate) fn value(alloc: Global, bytes: &[u8], levels: u8) -> Result<(Value, &[u8]), Stop>
    ensures { MatchResult result
        (λ found. FoundValue (ValueAt levels) found.0 bytes.now found.1.now)
        (λ e. StoppedBy BeginsNoDigit (ValueAt levels) bytes.now e) }
{
    if levels == 0 {
        return scalar(alloc, bytes);
    }
    let Some((first, rest)) = bytes.split_first() else {
        return Err(Stop::Short);
    };
    if *first == b'[' {
        return list(alloc, rest, levels - 1);
    }
    if *first == b'{' {
        return map(alloc, rest, levels - 1);
    }
    scalar(alloc, bytes)
}

/// Reads what stands behind the bracket that opens a list.
#[cycle(values)]
fn list(alloc: Global, bytes: &[u8], levels: u8) -> Result<(Value, &[u8]), Stop>
    ensures { MatchResult result
        (λ found. Found (ListAt levels) found.0 bytes.now found.1.now)
        (λ e. Stopped (ListAt levels) bytes.now e) }
{
    let rest = skip_blanks(bytes);
    let Some((first, after)) = rest.split_first() else {
        return Err(Stop::Short);
    };
    if *first == b']' {
        return Ok((Value::List(Items::new(alloc)), after));
    }
    let (items, after) = items(alloc, rest, levels)?;
    Ok((Value::List(Items::from_vec(items)), after))
}

/// Reads the items of a list that has some, and the bracket that closes it.
#[cycle(values)]
fn items(alloc: Global, bytes: &[u8], levels: u8) -> Result<(Vec<Value>, &[u8]), Stop>
    ensures { MatchResult result
        (λ found. Found (RunAt (ElementAt (ValueAt levels) 93)) found.0.items bytes.now found.1.now)
        (λ e. Stopped (RunAt (ElementAt (ValueAt levels) 93)) bytes.now e) }
{
    let mut items = Vec::new(alloc);
    let mut rest = bytes;
    loop {
        let ((item, last), after) = element(alloc, rest, levels, b']')?;
        items.push(item)?;
        rest = after;
        if last {
            return Ok((items, rest));
        }
    }
}

/// Reads what stands behind the brace that opens a map.
#[cycle(values)]
fn map(alloc: Global, bytes: &[u8], levels: u8) -> Result<(Value, &[u8]), Stop>
    ensures { MatchResult result
        (λ found. Found (MapAt levels) found.0 bytes.now found.1.now)
        (λ e. Stopped (MapAt levels) bytes.now e) }
{
    let rest = skip_blanks(bytes);
    let Some((first, after)) = rest.split_first() else {
        return Err(Stop::Short);
    };
    if *first == b'}' {
        return Ok((Value::Map(Items::new(alloc)), after));
    }
    let (members, after) = members(alloc, rest, levels)?;
    let pairs = pairs_of(alloc, members)?;
    Ok((Value::Map(pairs), after))
}

/// Reads the members of a map that has some, and the brace that closes it.
#[cycle(values)]
fn members(alloc: Global, bytes: &[u8], levels: u8) -> Result<(IndexMap<Text, Value>, &[u8]), Stop>
    ensures { MatchResult result
        (λ found. Found (EntriesAt levels) found.0.entries bytes.now found.1.now)
        (λ e. Stopped (EntriesAt levels) bytes.now e) }
{
    let mut members = IndexMap::new(alloc);
    let mut rest = bytes;
    loop {
        let (name, behind) = key(alloc, rest)?;
        let ((value, last), after) = element(alloc, behind, levels, b'}')?;
        members.insert(name, value)?;
        rest = after;
        if last {
            return Ok((members, rest));
        }
    }
}

/// Reads a value with blanks around it, and the comma or the closing byte behind it.
#[cycle(values)]
fn element(
    alloc: Global,
    bytes: &[u8],
    levels: u8,
    close: u8,
) -> Result<((Value, bool), &[u8]), Stop>
    requires { 57 < close }
    ensures { MatchResult result
        (λ found. Found (Marked (ElementAt (ValueAt levels) close)) found.0 bytes.now found.1.now)
        (λ e. Stopped (Marked (ElementAt (ValueAt levels) close)) bytes.now e) }
{
    let (value, rest) = value(alloc, skip_blanks(bytes), levels)?;
    let (last, rest) = delimiter(rest, close)?;
    Ok(((value, last), rest))
}

/// Reads a value that is no list and no map.
fn scalar(alloc: Global, bytes: &[u8]) -> Result<(Value, &[u8]), Stop>
    ensures { MatchResult result
        (λ found. FoundValue ScalarAt found.0 bytes.now found.1.now)
        (λ e. StoppedBy BeginsNoDigit ScalarAt bytes.now e) }
{
    let Some((first, rest)) = bytes.split_first() else {
        return Err(Stop::Short);
    };
    if *first == b'"' {
        let (text, rest) = string(alloc, rest)?;
        return Ok((Value::Str(text), rest));
    }
    if begins_number(*first) {
        let (number, rest) = number(bytes)?;
        return Ok((Value::Int(number), rest));
    }
    constant(bytes)
}

/// Reads `null`, `true` or `false`.
fn constant(bytes: &[u8]) -> Result<(Value, &[u8]), Stop>
    requires { BeginsNoOther bytes.now }
    ensures { MatchResult result
        (λ found. Found ScalarAt found.0 bytes.now found.1.now)
        (λ e. Stopped ScalarAt bytes.now e) }
{
    let Some((first, rest)) = bytes.split_first() else {
        return Err(Stop::Short);
    };
    if *first == b'n' {
        let ((), rest) = word(rest, b"ull")?;
        return Ok((Value::Nil, rest));
    }
    if *first == b't' {
        let ((), rest) = word(rest, b"rue")?;
        return Ok((Value::Bool(true), rest));
    }
    if *first == b'f' {
        let ((), rest) = word(rest, b"alse")?;
        return Ok((Value::Bool(false), rest));
    }
    Err(Stop::Bad(bytes.len()))
}

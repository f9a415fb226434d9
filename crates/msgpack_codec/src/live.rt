//! Which first bytes of a key can still become one that the map does not have.
//!
//! This is asked once, of the key at which a reading stops. A key of few bytes, such as a small integer, may be past
//! saving before its last byte, where each key that begins so is used.
ghost use Rattle.std.specs.Prelude.{◌≡◌, ◌+◌, ◌^◌, ◌<◌, ◌≤◌, length, take, IfOk, OnOk, MatchBool};
ghost use Rattle.msgpack_codec.specs.Message.{IsBytes};
ghost use Rattle.msgpack_codec.specs.Values.{IsLive, IsFree, IsMissing, missing_of};

use crate::heads::{Head, read_head};
use crate::stop::Stop;
use crate::used::{Copies, Used};
use std::alloc::{AllocError, Global};

/// How many of the first bytes of a key's beginning still begin a key that is not used.
pub(crate) fn live_length(alloc: Global, front: &[u8], used: &Used<'_>) -> Result<usize, AllocError>
    requires { length used.now < 2 ^ 32 }
    ensures within { IfOk result (λ n. n ≤ length front.now) }
    ensures live { IfOk result (λ n. IsLive used.now (take n front.now)) }
    ensures no_longer { IfOk result (λ n. n < length front.now → IsLive used.now (take (n + 1) front.now) → ⊥) }
{
    let copies = used.copies(alloc)?;
    let mut text = Vec::from_slice(alloc, front)?;
    let mut length = front.len();
    while length > 0 {
        if has_unused(&mut text, 9, &copies)? {
            return Ok(length);
        }
        length -= 1;
        text.truncate(length);
    }
    Ok(0)
}

/// Whether the bytes are, or begin, the spelling of a key that is not used.
///
/// A head has at most nine bytes; `room` says how many more than these bytes it can have.
fn has_unused(text: &mut Vec<u8>, room: u32, used: &Copies) -> Result<bool, AllocError>
    requires few { length used.now < 2 ^ 32 }
    requires room { 9 ≤ room + length text.old.items }
    ensures same { OnOk result (text.new.items ≡ text.old.items) }
    ensures live { IfOk result (λ found. MatchBool found (IsLive used.now text.old.items) (IsLive used.now text.old.items → ⊥)) }
{
    match read_head(text.as_slice(), false) {
        Ok((head, rest)) => match missing_behind(head, rest) {
            Missing::Never => Ok(false),
            Missing::Bytes(count) => has_unused_body(text, count, used),
            Missing::Type(count) => {
                text.push(0)?;
                let found = has_unused_body(text, count, used)?;
                text.pop();
                Ok(found)
            }
        },
        Err(Stop::Short) => {
            for byte in 0..256u32 {
                text.push(byte as u8)?;
                let found = has_unused(text, room - 1, used)?;
                text.pop();
                if found {
                    return Ok(true);
                }
            }
            Ok(false)
        }
        Err(Stop::Bad(_)) => Ok(false),
        Err(Stop::NoMemory) => Err(AllocError),
    }
}

/// What is missing behind a head and some bytes.
enum Missing {
    /// Nothing makes them a scalar.
    Never,
    /// The type of a symbol, and so many bytes.
    Type(usize),
    /// So many bytes.
    Bytes(usize),
}

/// What is missing behind a head and the first bytes of its body.
fn missing_behind(head: Head, rest: &[u8]) -> Missing
    ensures { IsMissing head rest.now result }
{
    match head {
        Head::Nil | Head::Bool(_) | Head::Int(_) => missing_bytes(0, rest.len()),
        Head::Str(length) => missing_bytes(length as usize, rest.len()),
        Head::Sym(length) => missing_name(length as usize, rest),
        Head::List(_) | Head::Map(_) => Missing::Never,
    }
}

/// What is missing where so many bytes are wanted.
fn missing_bytes(want: usize, have: usize) -> Missing
    ensures { result ≡ missing_of want have }
{
    if have <= want {
        Missing::Bytes(want - have)
    } else {
        Missing::Never
    }
}

/// What is missing of the type and the name of a symbol of this length.
fn missing_name(length: usize, rest: &[u8]) -> Missing
    ensures { IsMissing (Head.Sym length) rest.now result }
{
    let Some((first, name)) = rest.split_first() else {
        return Missing::Type(length);
    };
    if *first != 0 {
        return Missing::Never;
    }
    missing_bytes(length, name.len())
}

/// The same, where so many bytes are missing, which may be any.
fn has_unused_body(text: &mut Vec<u8>, missing: usize, used: &Copies) -> Result<bool, AllocError>
    requires few { length used.now < 2 ^ 32 }
    requires free { IsFree text.old.items missing }
    ensures same { OnOk result (text.new.items ≡ text.old.items) }
    ensures live { IfOk result (λ found. MatchBool found (IsLive used.now text.old.items) (IsLive used.now text.old.items → ⊥)) }
{
    if missing == 0 {
        return Ok(!used.has(text.as_slice()));
    }
    // So many keys are more than a map can have.
    if missing > 3 {
        return Ok(true);
    }
    for byte in 0..256u32 {
        text.push(byte as u8)?;
        let found = has_unused_body(text, missing - 1, used)?;
        text.pop();
        if found {
            return Ok(true);
        }
    }
    Ok(false)
}

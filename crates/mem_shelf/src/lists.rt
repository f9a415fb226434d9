//! The lists that a shelf in memory keeps.
ghost use Rattle.std.specs.Prelude.{◌≡◌, ◌++◌, ◌∷◌, [], ℕ, length, take, IfOk, OnOk, OnErr};
ghost use Rattle.std.specs.Option.{option_copied};
ghost use Rattle.bs_outside.specs.Cache.{last_of, now_of};
ghost use Rattle.mem_shelf.specs.Keeping.{due_at, is_named, latest};

use bs_outside::{Bytes, CacheName, is_same_name};
use std::alloc::{AllocError, Global};

/// A name and its bytes.
pub(crate) type CacheFile = (CacheName, Bytes);

/// The number of a call, and what somebody else renames just before it.
pub(crate) type Guest = (u64, CacheName, Bytes);

fn join_one(
    alloc: Global,
    past: &mut Vec<CacheFile>,
    guest: &Guest,
    call: u64,
) -> Result<(), AllocError>
    ensures ok { OnOk result (past.new.items ≡ past.old.items ++ due_at call (guest.now ∷ [])) }
    ensures err { OnErr result (past.new.items ≡ past.old.items) }
{
    if guest.0 == call {
        past.push((guest.1, Bytes::new(alloc, guest.2.as_slice())?))?;
    }
    Ok(())
}

/// What guests rename just before a call joins; short of memory, the first of it.
pub(crate) fn join(
    alloc: Global,
    past: &mut Vec<CacheFile>,
    guests: &[Guest],
    call: u64,
) -> Result<(), AllocError>
    ensures ok { OnOk result (past.new.items ≡ past.old.items ++ due_at call guests.now) }
    ensures err { OnErr result ((n : ℕ) × (past.new.items ≡ past.old.items ++ take n (due_at call guests.now))) }
{
    for guest in guests {
        join_one(alloc, past, guest, call)?;
    }
    Ok(())
}

/// The bytes of the last file of a name.
pub(crate) fn last_of<'a>(files: &'a [CacheFile], name: &CacheName) -> Option<&'a [u8]>
    ensures { option_copied result ≡ last_of files.now name.now }
{
    let mut rest = files;
    while let Some((file, before)) = rest.split_last() {
        if is_same_name(&file.0, name) {
            return Some(file.1.as_slice());
        }
        rest = before;
    }
    None
}

/// The bytes that stand under a name.
pub(crate) fn stands<'a>(
    start: &'a [CacheFile],
    past: &'a [CacheFile],
    name: &CacheName,
) -> Option<&'a [u8]>
    ensures { option_copied result ≡ now_of (last_of start.now) past.now name.now }
{
    match last_of(past, name) {
        Some(bytes) => Some(bytes),
        None => last_of(start, name),
    }
}

/// A file and its place join together, or neither does.
pub(crate) fn put_last(
    past: &mut Vec<CacheFile>,
    own: &mut Vec<usize>,
    file: CacheFile,
) -> Result<(), AllocError>
    ensures ok { OnOk result ((past.new.items ≡ past.old.items ++ file ∷ []) × (own.new.items ≡ own.old.items ++ length past.old.items ∷ [])) }
    ensures err { OnErr result ((past.new.items ≡ past.old.items) × (own.new.items ≡ own.old.items)) }
{
    own.push(past.len())?;
    if past.push(file).is_err() {
        own.pop();
        return Err(AllocError);
    }
    Ok(())
}

// Whether one of these files, or of those after them, has the name.
fn is_named(files: &[CacheFile], after: &[CacheFile], name: &CacheName) -> bool
    ensures { result ≡ is_named (files.now ++ after.now) name.now }
{
    last_of(files, name).is_some() || last_of(after, name).is_some()
}

// A copy of a file joins, unless a later one has its name.
fn put_latest_one(
    alloc: Global,
    file: &CacheFile,
    later: &[CacheFile],
    after: &[CacheFile],
    files: &mut Vec<CacheFile>,
) -> Result<(), AllocError>
    ensures { OnOk result (files.new.items ≡ files.old.items ++ latest (file.now ∷ []) (later.now ++ after.now)) }
{
    if !is_named(later, after, &file.0) {
        files.push((file.0, Bytes::new(alloc, file.1.as_slice())?))?;
    }
    Ok(())
}

/// Copies of the items of which no later one, and none of those after them, has the name.
pub(crate) fn put_latest(
    alloc: Global,
    items: &[CacheFile],
    after: &[CacheFile],
    files: &mut Vec<CacheFile>,
) -> Result<(), AllocError>
    ensures { OnOk result (files.new.items ≡ files.old.items ++ latest items.now after.now) }
{
    let mut rest = items;
    while let Some((file, later)) = rest.split_first() {
        put_latest_one(alloc, file, later, after, files)?;
        rest = later;
    }
    Ok(())
}

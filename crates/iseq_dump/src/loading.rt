//! Reading headers, bodies and whole units from an image.
ghost use Rattle.std.specs.Prelude.{◌≡◌, ◌↔◌, ◌+◌, ◌-◌, ◌≤◌, ℕ, List, Some, take, drop, length, slice_get, IsTrue, IfOk, IfSome, IfNone};
ghost use Rattle.iseq_types.specs.Index.{AreIndexRows};
ghost use Rattle.iseq_types.specs.Sound.{IsSound};
ghost use Rattle.iseq_types.specs.declared.sequences.Sequence.{Sequence};
ghost use Rattle.iseq_types.specs.declared.sequences.Unit.{Unit as CompiledUnit};
ghost use Rattle.iseq_dump.specs.Dump.{CanBeDumped, Reads, IsBody, body_bytes, IsHead, head_bytes, rows_of, Spells, HasSoundBodies};
ghost use Rattle.iseq_dump.specs.Reading.{Finds, Gives, ReadsIt, IsIt, Turns, whole_at, body_at, bodies_at};

use crate::cursor::Cursor;
use crate::fault::ReadError;
use crate::head::{Entry, Head, read_any_head};
use crate::index::{are_rows, are_tiled};
use crate::part::Part;
use bs_outside::{Image, Items, Steps};
use iseq_types::{Environments, IndexRow, Sequence, Unit, check_body_in};
use std::alloc::{AllocError, Global};
use std::sync::ledger::Ledger;

/// The answer of a reader, with no value as an answer of its own.
fn answer<T: Drop>(read: Result<T, ReadError>) -> Result<Option<T>, AllocError>
    ensures { Turns read result }
{
    match read {
        Ok(value) => Ok(Some(value)),
        Err(ReadError::NotSpelled) => Ok(None),
        Err(ReadError::Memory) => Err(AllocError),
    }
}

/// Reads a header that a dump may have.
fn read_dump_head<L: Ledger>(
    alloc: Global,
    cursor: &mut Cursor<'_>,
    steps: &mut Steps<L>,
) -> Result<Head, ReadError>
    ensures value { ReadsIt IsHead head_bytes cursor.old result cursor.new }
    ensures taken { steps.new + length cursor.new ≤ steps.old + length cursor.old }
{
    let before = cursor.len();
    let head = read_any_head(alloc, cursor, steps)?;
    let entries = head.entries.as_slice();
    if are_rows(entries) && are_tiled(before - cursor.len(), entries) {
        Ok(head)
    } else {
        Err(ReadError::NotSpelled)
    }
}

/// Reads the body that all of the bytes are.
fn read_whole_body<L: Ledger>(
    alloc: Global,
    mut cursor: Cursor<'_>,
    steps: &mut Steps<L>,
) -> Result<Sequence, ReadError>
    ensures value { Finds result (whole_at body_at cursor.entry) }
    ensures taken { steps.new ≤ steps.old + length cursor.entry }
{
    let body = Sequence::read(alloc, &mut cursor, steps)?;
    if cursor.len() == 0 {
        Ok(body)
    } else {
        Err(ReadError::NotSpelled)
    }
}

/// Reads the bodies of an index, one behind the other.
fn read_bodies<L: Ledger>(
    alloc: Global,
    entries: &[Entry],
    cursor: &mut Cursor<'_>,
    steps: &mut Steps<L>,
) -> Result<Vec<Sequence>, ReadError>
    ensures value { Gives (λ bodies. bodies.items) result cursor.new (bodies_at entries.now cursor.old) }
    ensures taken { steps.new + length cursor.new ≤ steps.old + length cursor.old }
{
    let mut bodies = Vec::new(alloc);
    for entry in entries {
        if cursor.len() < entry.length {
            return Err(ReadError::NotSpelled);
        }
        let front = cursor.split(entry.length);
        let body = read_whole_body(alloc, front, steps)?;
        bodies.push(body)?;
    }
    Ok(bodies)
}

/// The rows of an index.
fn rows(alloc: Global, entries: &[Entry]) -> Result<Vec<IndexRow>, AllocError>
    ensures { IfOk result (λ rows. rows.items ≡ rows_of entries.now) }
{
    entries.iter().map(|entry| entry.row).collect(alloc)
}

/// The unit whose dump all of the bytes from there are.
fn load<L: Ledger>(
    alloc: Global,
    image: &Image,
    from: u64,
    steps: &mut Steps<L>,
) -> Result<Unit, ReadError>
    ensures value { IsIt (λ u. Spells u (drop from image.now)) result }
    ensures taken { steps.new ≤ steps.old + (length image.now - from) }
{
    if from > image.len() {
        return Err(ReadError::NotSpelled);
    }
    let mut cursor = Cursor::new(image, from, image.len());
    let head = read_dump_head(alloc, &mut cursor, steps)?;
    let bodies = read_bodies(alloc, head.entries.as_slice(), &mut cursor, steps)?;
    if cursor.len() > 0 {
        return Err(ReadError::NotSpelled);
    }
    let rows = rows(alloc, head.entries.as_slice())?;
    Ok(Unit {
        path: head.path,
        rows: Items::from_vec(rows),
        bodies: Items::from_vec(bodies),
    })
}

/// Whether each body is sound under the rows.
fn are_sound(alloc: Global, unit: &Unit) -> Result<bool, AllocError>
    requires rows { AreIndexRows unit.now.rows }
    requires bodies { length unit.now.bodies ≡ length unit.now.rows }
    ensures { IfOk result (λ sound. IsTrue sound ↔ HasSoundBodies unit.now) }
{
    let rows = unit.rows.as_slice();
    let bodies = unit.bodies.as_slice();
    let environments = Environments::new(alloc, rows)?;
    for id in 0..bodies.len() {
        if check_body_in(alloc, &bodies[id], rows, &environments, id)?.is_none() {
            return Ok(false);
        }
    }
    Ok(true)
}

/// The unit with sound bodies whose dump all of the bytes from there are.
fn load_sound<L: Ledger>(
    alloc: Global,
    image: &Image,
    from: u64,
    steps: &mut Steps<L>,
) -> Result<Unit, ReadError>
    ensures value { IsIt (λ u. Spells u (drop from image.now) × HasSoundBodies u) result }
    ensures taken { steps.new ≤ steps.old + (length image.now - from) }
{
    let unit = load(alloc, image, from, steps)?;
    if are_sound(alloc, &unit)? {
        Ok(unit)
    } else {
        Err(ReadError::NotSpelled)
    }
}

/// The unit whose dump are the bytes of the image from `from` on, up to its end, where each body of
/// it is sound; else nothing. Each byte is taken at most once.
pub fn load_all<L: Ledger>(
    alloc: Global,
    image: &Image,
    from: u64,
    steps: &mut Steps<L>,
) -> Result<Option<Unit>, AllocError>
    ensures found { IfOk result (λ r. IfSome r (λ u. Spells u (drop from image.now) × HasSoundBodies u)) }
    ensures none { IfOk result (λ r. IfNone r ((u : CompiledUnit) → Spells u (drop from image.now) → HasSoundBodies u → ⊥)) }
    // What was loaded can be dumped again.
    ensures again { IfOk result (λ r. IfSome r CanBeDumped) }
    ensures taken { steps.new ≤ steps.old + (length image.now - from) }
{
    answer(load_sound(alloc, image, from, steps))
}

/// The header at the front of the bytes of the image from `from` on; nothing where no header that a
/// dump may have is spelled there. It takes no byte behind the header that it answers.
pub fn read_head<L: Ledger>(
    alloc: Global,
    image: &Image,
    from: u64,
    steps: &mut Steps<L>,
) -> Result<Option<Head>, AllocError>
    ensures value { IfOk result (λ r. (rest : List ℕ) × Reads IsHead head_bytes (drop from image.now) r rest) }
    ensures head { IfOk result (λ r. IfSome r (λ head. steps.new ≤ steps.old + length (head_bytes head))) }
    ensures taken { steps.new ≤ steps.old + (length image.now - from) }
{
    if from > image.len() {
        return Ok(None);
    }
    let mut cursor = Cursor::new(image, from, image.len());
    answer(read_dump_head(alloc, &mut cursor, steps))
}

/// The body that the `size` bytes of the image from `place` on spell; nothing where they spell
/// none, or where the image has fewer. It takes each of these bytes at most once, and no other.
pub fn read_body<L: Ledger>(
    alloc: Global,
    image: &Image,
    place: u64,
    size: u64,
    steps: &mut Steps<L>,
) -> Result<Option<Sequence>, AllocError>
    ensures found { IfOk result (λ r. IfSome r (λ body. IsBody body × (take size (drop place image.now) ≡ body_bytes body))) }
    // The image has all of these bytes, so that none of them is cut off in what was found.
    ensures inside { IfOk result (λ r. IfSome r (λ body. place + size ≤ length image.now)) }
    ensures none { IfOk result (λ r. IfNone r ((body : Sequence) → IsBody body → length (body_bytes body) ≡ size → take size (drop place image.now) ≡ body_bytes body → ⊥)) }
    ensures taken { steps.new ≤ steps.old + size }
{
    if place > image.len() || size > image.len() - place {
        return Ok(None);
    }
    let cursor = Cursor::new(image, place, place + size);
    answer(read_whole_body(alloc, cursor, steps))
}

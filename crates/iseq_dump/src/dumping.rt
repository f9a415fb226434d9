//! The dump of a unit.
ghost use Rattle.std.specs.Prelude.{◌≡◌, ◌+◌, ◌*◌, ◌≤◌, ◌++◌, length, IfOk, IfSome, OnOk};
ghost use Rattle.std.specs.List.{flat_map, AllByRecursion};
ghost use Rattle.iseq_types.specs.declared.sequences.IndexRow.{IndexRow};
ghost use Rattle.iseq_dump.specs.Dump.{CanBeDumped, Spells, IsNumber, IsBody, IsAllowedBody, body_bytes, entry_bytes, entries_of, lengths_of};

use crate::head::{Entry, MARK};
use crate::number::put_number;
use crate::part::Part;
use bs_outside::Bytes;
use iseq_types::{IndexRow, Sequence, Unit};
use std::alloc::{AllocError, Global};

/// Puts the bodies, one behind the other, and answers how many bytes each has.
fn put_bodies(alloc: Global, bodies: &[Sequence], out: &mut Vec<u8>) -> Result<Vec<u64>, AllocError>
    requires { AllByRecursion IsAllowedBody bodies.now }
    ensures spelled { OnOk result (out.new.items ≡ out.old.items ++ flat_map body_bytes bodies.now) }
    ensures each { OnOk result (AllByRecursion IsBody bodies.now) }
    ensures lengths { IfOk result (λ lengths. lengths.items ≡ lengths_of bodies.now) }
{
    let mut lengths = Vec::new(alloc);
    for body in bodies {
        let before = out.len();
        body.put(out)?;
        lengths.push((out.len() - before) as u64)?;
    }
    Ok(lengths)
}

/// Puts the index of these rows, whose bodies have these lengths and stand one behind the other from
/// the place `first` on.
fn put_index(
    rows: &[IndexRow],
    lengths: &[u64],
    first: u64,
    out: &mut Vec<u8>,
) -> Result<(), AllocError>
    requires { length lengths.now ≡ length rows.now }
    ensures spelled { OnOk result (out.new.items ≡ out.old.items ++ flat_map entry_bytes (entries_of first rows.now lengths.now)) }
    ensures locals { OnOk result (AllByRecursion (λ (row : IndexRow). IsNumber row.locals) rows.now) }
{
    let mut place = first;
    for id in 0..rows.len() {
        let entry = Entry {
            row: rows[id],
            place,
            length: lengths[id],
        };
        entry.put(out)?;
        // Bytes that pass this place don't fit into memory.
        place = place.checked_add(lengths[id]).ok_or(AllocError)?;
    }
    Ok(())
}

/// Where the first body begins: behind so many bytes, and an index of so many rows.
fn behind_index(rows: usize, before: usize) -> Option<u64>
    ensures { IfSome result (λ place. place ≡ before + 33 * rows) }
{
    (rows as u64).checked_mul(33)?.checked_add(before as u64)
}

/// The dump of the unit, whose rows are such as an index has, with a body for each, and whose break
/// and next rows name no sequence.
pub fn dump(alloc: Global, unit: &Unit) -> Result<Bytes, AllocError>
    requires { CanBeDumped unit.now }
    ensures { IfOk result (λ bytes. Spells unit.now bytes) }
{
    let mut bodies = Vec::new(alloc);
    let lengths = put_bodies(alloc, unit.bodies.as_slice(), &mut bodies)?;
    let rows = unit.rows.as_slice();
    let mut out = Vec::new(alloc);
    out.extend_from_slice(&MARK)?;
    unit.path.put(&mut out)?;
    put_number(rows.len() as u64, &mut out)?;
    // An index that passes 64 bits doesn't fit into memory.
    let first = behind_index(rows.len(), out.len()).ok_or(AllocError)?;
    put_index(rows, lengths.as_slice(), first, &mut out)?;
    out.append(&mut bodies)?;
    Ok(Bytes::from_vec(out))
}

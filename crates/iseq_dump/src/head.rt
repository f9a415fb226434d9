//! The header of a dump, and its index.
ghost use Rattle.std.specs.Prelude.{◌≡◌, ◌+◌, ◌≤◌, ◌++◌, take, drop, length, OnOk};
ghost use Rattle.iseq_dump.specs.Dump.{fixed_bytes, kind_byte};
ghost use Rattle.iseq_dump.specs.Reading.{Gives, fixed_at, sequence_kind_at, exactly_at, head_at, mark};

use crate::cursor::Cursor;
use crate::fault::ReadError;
use crate::part::{Part, read_list};
use bs_outside::{Items, Steps, Text};
use byteorder::{ByteOrder, LittleEndian};
use iseq_types::{IndexRow, SeqKind};
use std::alloc::{AllocError, Global};
use std::sync::ledger::Ledger;

/// What the index says of a sequence: its row, the place of its body, counted from the first byte
/// of the header, and how many bytes the body has.
#[derive(Clone, Copy, Debug)]
pub struct Entry {
    pub row: IndexRow,
    pub place: u64,
    pub length: u64,
}

/// The header of a dump: the path of the file, and what the index says of each sequence.
#[derive(Drop)]
pub struct Head {
    pub path: Text,
    pub entries: Items<Entry>,
}

/// The bytes with which each dump begins.
pub const MARK: [u8; 4] = [0x59, 0x53, 0x51, 0x01];

/// Puts a number in 8 bytes, the lowest first.
#[tactic(auto, unfolding(crate::specs::Dump::fixed_bytes))]
fn put_fixed(number: u64, out: &mut Vec<u8>) -> Result<(), AllocError>
    ensures { OnOk result (out.new.items ≡ out.old.items ++ fixed_bytes number) }
{
    let mut bytes = [0u8; 8];
    LittleEndian::write_u64(&mut bytes, number);
    out.extend_from_slice(&bytes)
}

/// Takes 8 bytes.
fn take_eight<L: Ledger>(cursor: &mut Cursor<'_>, steps: &mut Steps<L>) -> [u8; 8]
    requires { 8 ≤ length cursor.old }
    ensures bytes { cursor.old ≡ result ++ cursor.new }
    ensures taken { steps.new + length cursor.new ≤ steps.old + length cursor.old }
{
    let mut bytes = [0u8; 8];
    for place in 0..8 {
        bytes[place] = cursor.take(steps);
    }
    bytes
}

fn read_fixed<L: Ledger>(cursor: &mut Cursor<'_>, steps: &mut Steps<L>) -> Result<u64, ReadError>
    ensures value { Gives (λ n. n) result cursor.new (fixed_at cursor.old) }
    ensures taken { steps.new + length cursor.new ≤ steps.old + length cursor.old }
{
    if cursor.len() < 8 {
        return Err(ReadError::NotSpelled);
    }
    let bytes = take_eight(cursor, steps);
    Ok(LittleEndian::read_u64(&bytes))
}

fn byte_of(kind: SeqKind) -> u8
    ensures { result ≡ kind_byte kind }
{
    match kind {
        SeqKind::File => 0,
        SeqKind::Method => 1,
        SeqKind::Class => 2,
        SeqKind::Block => 3,
        SeqKind::Rescue => 4,
        SeqKind::Ensure => 5,
    }
}

#[tactic(auto, unfolding(crate::specs::Reading::sequence_kind_at))]
fn read_kind<L: Ledger>(cursor: &mut Cursor<'_>, steps: &mut Steps<L>) -> Result<SeqKind, ReadError>
    ensures value { Gives (λ k. k) result cursor.new (sequence_kind_at cursor.old) }
    ensures taken { steps.new + length cursor.new ≤ steps.old + length cursor.old }
{
    match cursor.byte(steps)? {
        0 => Ok(SeqKind::File),
        1 => Ok(SeqKind::Method),
        2 => Ok(SeqKind::Class),
        3 => Ok(SeqKind::Block),
        4 => Ok(SeqKind::Rescue),
        5 => Ok(SeqKind::Ensure),
        _ => Err(ReadError::NotSpelled),
    }
}

impl Part for Entry {
    ghost use Rattle.std.specs.Prelude.{⊤};
    ghost use Rattle.iseq_dump.specs.Dump.{IsEntry, entry_bytes};
    ghost use Rattle.iseq_dump.specs.Reading.{entry_at};

    ghost fits = { IsEntry };

    ghost bytes = { entry_bytes };

    ghost at = { entry_at };

    ghost allowed = { λ _. ⊤ };

    fn put(&self, out: &mut Vec<u8>) -> Result<(), AllocError> {
        out.push(byte_of(self.row.kind))?;
        put_fixed(self.row.parent as u64, out)?;
        put_fixed(self.row.locals, out)?;
        put_fixed(self.place, out)?;
        put_fixed(self.length, out)?;
        Ok(())
    }

    #[tactic(auto, unfolding(crate::specs::Reading::entry_at))]
    fn read<L: Ledger>(
        _alloc: Global,
        cursor: &mut Cursor<'_>,
        steps: &mut Steps<L>,
    ) -> Result<Entry, ReadError> {
        let kind = read_kind(cursor, steps)?;
        let parent = read_fixed(cursor, steps)? as usize;
        let locals = read_fixed(cursor, steps)?;
        let place = read_fixed(cursor, steps)?;
        let length = read_fixed(cursor, steps)?;
        Ok(Entry {
            row: IndexRow {
                kind,
                parent,
                locals,
            },
            place,
            length,
        })
    }
}

/// Reads these bytes, and no others.
fn expect<L: Ledger>(
    wanted: &[u8],
    cursor: &mut Cursor<'_>,
    steps: &mut Steps<L>,
) -> Result<(), ReadError>
    ensures value { Gives (λ u. u) result cursor.new (exactly_at wanted.now cursor.old) }
    ensures taken { steps.new + length cursor.new ≤ steps.old + length cursor.old }
{
    for byte in wanted {
        let found = cursor.byte(steps)?;
        if found != *byte {
            return Err(ReadError::NotSpelled);
        }
    }
    Ok(())
}

/// Reads a header, and does not look yet whether its index may be one.
#[tactic(auto, unfolding(crate::specs::Reading::head_at))]
pub fn read_any_head<L: Ledger>(
    alloc: Global,
    cursor: &mut Cursor<'_>,
    steps: &mut Steps<L>,
) -> Result<Head, ReadError>
    ensures value { Gives (λ h. h) result cursor.new (head_at cursor.old) }
    ensures taken { steps.new + length cursor.new ≤ steps.old + length cursor.old }
{
    expect(&MARK, cursor, steps)?;
    let path = Text::read(alloc, cursor, steps)?;
    let entries = read_list(alloc, cursor, steps)?;
    Ok(Head { path, entries })
}

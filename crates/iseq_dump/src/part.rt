//! What can be written and read again, and lists of it.
ghost use Rattle.std.specs.Prelude.{◌≡◌, ◌+◌, ◌≤◌, ◌++◌, Option, List, ℕ, length, take, drop, All, OnOk, IfOk};
ghost use Rattle.iseq_dump.specs.Reading.{Gives, times_at, list_at};
ghost use Rattle.iseq_dump.specs.Dump.{Puts, IsList, list_bytes};

use crate::cursor::Cursor;
use crate::fault::ReadError;
use crate::number::{put_number, read_number};
use bs_outside::{Items, Steps};
use std::alloc::{AllocError, Global};
use std::sync::ledger::Ledger;

/// A part of a dump.
pub trait Part: Drop {
    /// Holds of the values that have a spelling.
    ghost fits: { Self → Type 0 };

    /// The spelling.
    ghost bytes: { Self → List ℕ };

    /// What reading gives.
    ghost at: { List ℕ → Option (Self × List ℕ) };

    /// What a value has to meet, beside lying in memory, to be put.
    ghost allowed: { Self → Type 0 };

    /// Puts it behind what is there.
    fn put(&self, out: &mut Vec<u8>) -> Result<(), AllocError>
        requires { allowed self.now }
        ensures { OnOk result (Puts fits bytes self.now out.old.items out.new.items) };

    /// Reads it from the front.
    fn read<L: Ledger>(
        alloc: Global,
        cursor: &mut Cursor<'_>,
        steps: &mut Steps<L>,
    ) -> Result<Self, ReadError>
        ensures value { Gives (λ x. x) result cursor.new (at cursor.old) }
        ensures taken { steps.new + length cursor.new ≤ steps.old + length cursor.old };
}

/// Puts how many there are, and each.
pub fn put_list<T: Part>(items: &[T], out: &mut Vec<u8>) -> Result<(), AllocError>
    requires { All T.allowed items.now }
    ensures { OnOk result (Puts (IsList T.fits) (list_bytes T.bytes) items.now out.old.items out.new.items) }
{
    put_number(items.len() as u64, out)?;
    for item in items {
        item.put(out)?;
    }
    Ok(())
}

/// Reads so many. Each takes at least one byte, so that no room is made for more than there are bytes.
fn read_times<T: Part, L: Ledger>(
    alloc: Global,
    count: u64,
    cursor: &mut Cursor<'_>,
    steps: &mut Steps<L>,
) -> Result<Vec<T>, ReadError>
    ensures value { Gives (λ xs. xs.items) result cursor.new (times_at T.at count cursor.old) }
    ensures taken { steps.new + length cursor.new ≤ steps.old + length cursor.old }
{
    let mut items = Vec::new(alloc);
    for _ in 0..count {
        items.push(T::read(alloc, cursor, steps)?)?;
    }
    Ok(items)
}

/// Reads how many there are, and each.
pub fn read_list<T: Part, L: Ledger>(
    alloc: Global,
    cursor: &mut Cursor<'_>,
    steps: &mut Steps<L>,
) -> Result<Items<T>, ReadError>
    ensures value { Gives (λ xs. xs) result cursor.new (list_at T.at cursor.old) }
    ensures taken { steps.new + length cursor.new ≤ steps.old + length cursor.old }
{
    let count = read_number(cursor, steps)?;
    let items = read_times(alloc, count, cursor, steps)?;
    Ok(Items::from_vec(items))
}

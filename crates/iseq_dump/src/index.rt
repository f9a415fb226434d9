//! Which indexes a dump may have.
ghost use Rattle.std.specs.Prelude.{◌↔◌, IsTrue};
ghost use Rattle.iseq_types.specs.Index.{IsIndexRow, AreIndexRows};
ghost use Rattle.iseq_dump.specs.Dump.{AreTiled, IsNumber, end_of, rows_of};

use crate::head::Entry;
use iseq_types::{IndexRow, SeqKind};

fn is_row(id: usize, row: IndexRow) -> bool
    ensures { IsTrue result ↔ IsIndexRow id row }
{
    let is_file = matches!(row.kind, SeqKind::File);
    if id == 0 {
        is_file && row.parent == 0
    } else {
        !is_file && row.parent < id
    }
}

/// Whether there is a row, and each is one that its number may have.
pub fn are_rows(entries: &[Entry]) -> bool
    ensures { IsTrue result ↔ AreIndexRows (rows_of entries.now) }
{
    for id in 0..entries.len() {
        if !is_row(id, entries[id].row) {
            return false;
        }
    }
    !entries.is_empty()
}

/// Whether the bodies stand one behind the other from this place on, and end within 64 bits.
pub fn are_tiled(first: u64, entries: &[Entry]) -> bool
    ensures { IsTrue result ↔ (AreTiled first entries.now × IsNumber (end_of first entries.now)) }
{
    let mut place = first;
    for entry in entries {
        if entry.place != place {
            return false;
        }
        match place.checked_add(entry.length) {
            Some(next) => place = next,
            None => return false,
        }
    }
    true
}

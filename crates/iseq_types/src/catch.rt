//! The search in a catch table.
ghost use Rattle.std.specs.Prelude.{◌↔◌, IsTrue, IfSome, IfNone, length};
ghost use Rattle.iseq_types.specs.Catch.{Fits, IsFirstFit, NoneFits};

use crate::{CatchKind, CatchRow, Sequence};

/// Whether the row is of this kind, and holds the place.
fn fits(row: &CatchRow, kind: CatchKind, place: u64) -> bool
    ensures { IsTrue result ↔ Fits kind place row.now }
{
    row.kind == kind && row.from <= place && place < row.to
}

/// The first row of this kind, from the row `from_row` on, whose range holds the place `pc`. A range
/// holds the places from `from` on and below `to`.
pub fn find_catch(seq: &Sequence, from_row: usize, pc: usize, kind: CatchKind) -> Option<usize>
    ensures found { IfSome result (IsFirstFit seq.now.rows kind pc from_row) }
    ensures none { IfNone result (NoneFits seq.now.rows kind pc from_row (length seq.now.rows)) }
{
    let rows = seq.rows.as_slice();
    for found in from_row..rows.len() {
        if fits(&rows[found], kind, pc as u64) {
            return Some(found);
        }
    }
    None
}

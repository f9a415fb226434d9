//! The checks of a body that look at its rows, its ends and its locals.
ghost use Rattle.std.specs.Prelude.{◌≡◌, ◌≢◌, ◌↔◌, ◌<◌, ◌≤◌, ℕ, IsTrue, IfSome, All, length};
ghost use Rattle.iseq_types.specs.Instructions.{target_of};
ghost use Rattle.iseq_types.specs.Sound.{IsInside, IsOrdered, EndsRight, CountsLocals};

use crate::{CatchRow, IndexRow, Instr, Line, SeqKind, Sequence};

/// Whether each jump of the code leads to a place below the end.
fn targets_are_below(code: &[Line], end: u64) -> bool
    ensures { IsTrue result ↔ All (λ line. IfSome (target_of line.instr) (λ target. target < end)) code.now }
{
    code.iter().all(|line| match line.instr.target() {
        Some(target) => target < end,
        None => true,
    })
}

/// Whether each entry lies below the end.
fn entries_are_below(entries: &[u64], end: u64) -> bool
    ensures { IsTrue result ↔ All (λ entry. entry < end) entries.now }
{
    entries.iter().all(|entry| *entry < end)
}

/// Whether each row lies below the end.
fn rows_are_below(rows: &[CatchRow], end: u64) -> bool
    ensures { IsTrue result ↔ All (λ row. (row.from < end) × (row.to ≤ end) × (row.cont < end)) rows.now }
{
    rows.iter()
        .all(|row| row.from < end && row.to <= end && row.cont < end)
}

/// Whether targets, entries and rows lie inside the body.
pub(crate) fn is_inside(seq: &Sequence) -> bool
    ensures { IsTrue result ↔ IsInside seq.now }
{
    let code = seq.code.as_slice();
    let end = code.len() as u64;
    targets_are_below(code, end)
        && entries_are_below(seq.entries.as_slice(), end)
        && rows_are_below(seq.rows.as_slice(), end)
}

/// Whether each row has a range that is not empty, and goes on at its end or later.
pub(crate) fn rows_are_ordered(rows: &[CatchRow]) -> bool
    ensures { IsTrue result ↔ All IsOrdered rows.now }
{
    rows.iter()
        .all(|row| row.from < row.to && row.to <= row.cont)
}

/// Whether no instruction is a leave.
fn has_no_leave(code: &[Line]) -> bool
    ensures { IsTrue result ↔ All (λ line. line.instr ≢ Instr.Leave) code.now }
{
    code.iter().all(|line| !matches!(line.instr, Instr::Leave))
}

/// Whether the last instruction may be the last, and an ensure part has no leave.
pub(crate) fn ends_right(seq: &Sequence, kind: SeqKind) -> bool
    ensures { IsTrue result ↔ EndsRight seq.now kind }
{
    let code = seq.code.as_slice();
    let Some(last) = code.last() else {
        return false;
    };
    last.instr.is_ending() && (kind != SeqKind::Ensure || has_no_leave(code))
}

/// Whether the body has as many locals as its index row says, its parameters among them.
pub(crate) fn counts_locals(seq: &Sequence, rows: &[IndexRow], id: usize) -> bool
    requires { id < length rows.now }
    ensures { IsTrue result ↔ CountsLocals seq.now rows.now id }
{
    let locals = seq.locals.len() as u64;
    let optional = seq.entries.len().saturating_sub(1) as u64;
    let parameters = seq.required as u128 + optional as u128 + seq.rest as u128 + seq.block as u128;
    locals == rows[id].locals && parameters <= locals as u128
}

//! The check of throws.
ghost use Rattle.std.specs.Prelude.{◌≡◌, ◌↔◌, ◌<◌, IsTrue, IfOk, All, length};
ghost use Rattle.iseq_types.specs.Furthest.{AreFurthest};
ghost use Rattle.iseq_types.specs.Sound.{EachThrow};
ghost use Rattle.iseq_types.specs.Throws.{IsRightThrow};

use crate::{CatchKind, CatchRow, Instr, SeqKind, Sequence};
use std::alloc::{AllocError, Global};

/// Whether the row is an ensure row.
fn is_ensure(row: &CatchRow) -> bool
    ensures { IsTrue result ↔ (row.now.kind ≡ CatchKind.Ensure) }
{
    row.kind == CatchKind::Ensure
}

/// For each place of a body, the furthest end of the ensure rows that begin there, or 0.
fn furthest_ends(alloc: Global, rows: &[CatchRow], places: usize) -> Result<Vec<u64>, AllocError>
    requires { All (λ row. row.from < places) rows.now }
    ensures { IfOk result (λ ends. AreFurthest rows.now places ends.items) }
{
    let mut ends = vec![in alloc; 0u64; places]?;
    for row in rows {
        if is_ensure(row) {
            let from = row.from as usize;
            ends[from] = ends[from].max(row.to);
        }
    }
    Ok(ends)
}

/// Whether an instruction that is a throw is one that may stand there.
fn is_right_throw(instr: &Instr, kind: SeqKind, ensured: bool) -> bool
    ensures { IsTrue result ↔ IsRightThrow kind ensured instr.now }
{
    match instr {
        Instr::Throw(0) | Instr::Throw(7) => matches!(kind, SeqKind::Rescue | SeqKind::Ensure),
        Instr::Throw(6) => ensured,
        Instr::Throw(number) => *number <= 7,
        _ => true,
    }
}

/// Whether each throw is one that may stand where it stands.
pub(crate) fn throws_are_right(
    alloc: Global,
    seq: &Sequence,
    kind: SeqKind,
) -> Result<bool, AllocError>
    requires { All (λ row. row.from < length seq.now.code) seq.now.rows }
    ensures { IfOk result (λ yes. IsTrue yes ↔ EachThrow seq.now kind) }
{
    let code = seq.code.as_slice();
    let ends = furthest_ends(alloc, seq.rows.as_slice(), code.len())?;
    let mut furthest = 0;
    for place in 0..code.len() {
        furthest = ends[place].max(furthest);
        if !is_right_throw(&code[place].instr, kind, (place as u64) < furthest) {
            return Ok(false);
        }
    }
    Ok(true)
}

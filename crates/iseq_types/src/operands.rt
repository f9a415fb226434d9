//! The checks of a body that look at one instruction at a time.
ghost use Rattle.std.specs.Prelude.{◌≡◌, ◌↔◌, ◌<◌, ◌≢◌, ℕ, IsTrue, IfSome, All, length};
ghost use Rattle.iseq_types.specs.Instructions.{target_of};
ghost use Rattle.iseq_types.specs.Index.{IsChild};
ghost use Rattle.iseq_types.specs.Sound.{HasKnownOperands, SpreadsBelow, NamesChild, InstrNamesChild, SeqIsRight};

use crate::{CatchKind, CatchRow, IndexRow, Instr, Line, SeqKind};

/// Whether each operand has a value that its instruction knows.
fn has_known_operands(instr: &Instr) -> bool
    ensures { IsTrue result ↔ HasKnownOperands instr.now }
{
    match instr {
        Instr::OptGetConstantPath(from, names) => *from <= 2 && names.len() > 0,
        Instr::NewHash(count) => *count % 2 == 0,
        Instr::NewRange(form) => *form <= 1,
        Instr::Send(_, _, _, flags, _) => *flags <= 7,
        Instr::InvokeSuper(_, _, flags, _) => *flags <= 7,
        Instr::DefineMethod(_, seq, own) => *seq != 0 && *own <= 1,
        Instr::DefineClass(_, seq, form) => *seq != 0 && *form <= 2,
        _ => true,
    }
}

/// Whether this holds of all instructions.
pub(crate) fn operands_are_known(code: &[Line]) -> bool
    ensures { IsTrue result ↔ All (λ line. HasKnownOperands line.instr) code.now }
{
    code.iter().all(|line| has_known_operands(&line.instr))
}

fn all_below(places: &[u64], count: u64) -> bool
    ensures { IsTrue result ↔ All (λ place. place < count) places.now }
{
    places.iter().all(|place| *place < count)
}

/// Whether the places of the splats are below the number of arguments.
fn spreads_below(instr: &Instr) -> bool
    ensures { IsTrue result ↔ SpreadsBelow instr.now }
{
    match instr {
        Instr::NewArray(count, splats) => all_below(splats.as_slice(), *count),
        Instr::Send(_, count, splats, _, _) => all_below(splats.as_slice(), *count),
        Instr::InvokeSuper(count, splats, _, _) => all_below(splats.as_slice(), *count),
        Instr::InvokeBlock(count, splats) => all_below(splats.as_slice(), *count),
        _ => true,
    }
}

/// Whether this holds of all instructions.
pub(crate) fn splats_are_below(code: &[Line]) -> bool
    ensures { IsTrue result ↔ All (λ line. SpreadsBelow line.instr) code.now }
{
    code.iter().all(|line| spreads_below(&line.instr))
}

/// Whether the sequence of this number is a child of the one of number `parent`, and of this kind.
fn is_child(rows: &[IndexRow], parent: usize, kind: SeqKind, id: u64) -> bool
    ensures { IsTrue result ↔ IsChild rows.now parent kind id }
{
    match rows.get(id as usize) {
        Some(row) => row.kind == kind && row.parent == parent,
        None => false,
    }
}

/// Whether an operand that is a sequence's number plus 1 names such a child, or none.
fn names_child(rows: &[IndexRow], parent: usize, kind: SeqKind, operand: u64) -> bool
    ensures { IsTrue result ↔ NamesChild rows.now parent kind operand }
{
    if operand == 0 {
        return true;
    }
    is_child(rows, parent, kind, operand - 1)
}

/// Whether the sequence that an instruction names is a child of the right kind.
fn instr_names_child(instr: &Instr, rows: &[IndexRow], id: usize) -> bool
    ensures { IsTrue result ↔ InstrNamesChild rows.now id instr.now }
{
    match instr {
        Instr::Send(_, _, _, _, seq) => names_child(rows, id, SeqKind::Block, *seq),
        Instr::InvokeSuper(_, _, _, seq) => names_child(rows, id, SeqKind::Block, *seq),
        Instr::DefineMethod(_, seq, _) => names_child(rows, id, SeqKind::Method, *seq),
        Instr::DefineClass(_, seq, _) => names_child(rows, id, SeqKind::Class, *seq),
        _ => true,
    }
}

/// Whether this holds of all instructions.
pub(crate) fn instructions_name_children(code: &[Line], rows: &[IndexRow], id: usize) -> bool
    ensures { IsTrue result ↔ All (λ line. InstrNamesChild rows.now id line.instr) code.now }
{
    code.iter()
        .all(|line| instr_names_child(&line.instr, rows, id))
}

/// Whether a catch row's sequence is a child of the right kind, or 0 for a row that has none.
fn seq_is_right(row: &CatchRow, rows: &[IndexRow], id: usize) -> bool
    ensures { IsTrue result ↔ SeqIsRight rows.now id row.now.kind row.now.seq }
{
    match row.kind {
        CatchKind::Rescue => is_child(rows, id, SeqKind::Rescue, row.seq),
        CatchKind::Ensure => is_child(rows, id, SeqKind::Ensure, row.seq),
        CatchKind::Break => row.seq == 0,
        CatchKind::Next => row.seq == 0,
    }
}

/// Whether this holds of all rows.
pub(crate) fn catch_rows_name_children(catches: &[CatchRow], rows: &[IndexRow], id: usize) -> bool
    ensures { IsTrue result ↔ All (λ row. SeqIsRight rows.now id row.kind row.seq) catches.now }
{
    catches.iter().all(|row| seq_is_right(row, rows, id))
}

//! The check that a body is sound.
ghost use Rattle.std.specs.Prelude.{◌↔◌, ◌<◌, IsTrue, IfOk, IfNone, OnSome, length};
ghost use Rattle.iseq_types.specs.Index.{AreIndexRows};
ghost use Rattle.iseq_types.specs.Homes.{AreEnvironments};
ghost use Rattle.iseq_types.specs.Groups.{HasRightOperands, HasShape};
ghost use Rattle.iseq_types.specs.Sound.{IsSound};

use crate::depths::depths_are_kept;
use crate::locals::locals_exist;
use crate::operands::{
    catch_rows_name_children, instructions_name_children, operands_are_known, splats_are_below,
};
use crate::shape::{counts_locals, ends_right, is_inside, rows_are_ordered};
use crate::throws::throws_are_right;
use crate::{Environments, IndexRow, SeqKind, Sequence};
use std::alloc::{AllocError, Global};

/// What a body that was found sound is known by. Only `check_body` makes one, and what it says is
/// the clause there.
#[derive(Clone, Copy, Debug)]
pub struct Sound(());

/// Whether targets, entries and rows lie inside, rows are in order, the end is right, and locals are
/// counted.
fn has_shape(seq: &Sequence, rows: &[IndexRow], id: usize, kind: SeqKind) -> bool
    requires { id < length rows.now }
    ensures { IsTrue result ↔ HasShape seq.now rows.now id kind }
{
    is_inside(seq)
        && rows_are_ordered(seq.rows.as_slice())
        && ends_right(seq, kind)
        && counts_locals(seq, rows, id)
}

/// Whether the sequences named are children, splats are below the count, and operands are known.
fn has_right_operands(seq: &Sequence, rows: &[IndexRow], id: usize) -> bool
    ensures { IsTrue result ↔ HasRightOperands seq.now rows.now id }
{
    let code = seq.code.as_slice();
    instructions_name_children(code, rows, id)
        && catch_rows_name_children(seq.rows.as_slice(), rows, id)
        && splats_are_below(code)
        && operands_are_known(code)
}

/// Whether the body of the sequence of number `id` is sound, under the rows of its unit's index: a
/// machine that runs it never finds too little on the stack, a local that does not exist, or a jump
/// out of the code. The cost is linear in the length of the body and in the rows of the index; for
/// the bodies of one unit together, `check_body_in` takes the rows once.
pub fn check_body(
    alloc: Global,
    seq: &Sequence,
    rows: &[IndexRow],
    id: usize,
) -> Result<Option<Sound>, AllocError>
    requires below { id < length rows.now }
    requires index { AreIndexRows rows.now }
    ensures sound { IfOk result (λ found. OnSome found (IsSound seq.now rows.now id)) }
    ensures unsound { IfOk result (λ found. IfNone found (¬ IsSound seq.now rows.now id)) }
{
    let environments = Environments::new(alloc, rows)?;
    check_body_in(alloc, seq, rows, &environments, id)
}

/// The same, with the environments of the unit at hand. The cost is linear in the length of the body
/// and in the children that it names; a catch row costs the number of binary digits of its range's
/// length more, and a local that of the levels outward.
pub fn check_body_in(
    alloc: Global,
    seq: &Sequence,
    rows: &[IndexRow],
    environments: &Environments,
    id: usize,
) -> Result<Option<Sound>, AllocError>
    requires below { id < length rows.now }
    requires index { AreIndexRows rows.now }
    requires environments { AreEnvironments rows.now environments.now }
    ensures sound { IfOk result (λ found. OnSome found (IsSound seq.now rows.now id)) }
    ensures unsound { IfOk result (λ found. IfNone found (¬ IsSound seq.now rows.now id)) }
{
    let kind = rows[id].kind;
    let code = seq.code.as_slice();
    if !has_shape(seq, rows, id, kind)
        || !has_right_operands(seq, rows, id)
        || !locals_exist(code, rows, environments, id)
    {
        return Ok(None);
    }
    if !throws_are_right(alloc, seq, kind)? || !depths_are_kept(alloc, seq, kind)? {
        return Ok(None);
    }
    Ok(Some(Sound(())))
}

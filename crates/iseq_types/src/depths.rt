//! The depths of the stack at the places of a body.
ghost use Rattle.std.specs.Bool.{OnFalse, OnTrue};
ghost use Rattle.std.specs.Prelude.{◌≡◌, ◌↔◌, ◌<◌, ◌≤◌, ◌+◌, ◌^◌, [], ◌∷◌, ℕ, Some, None, IsTrue, IfOk, IfSome, IfNone, OnOk, All, Contains, length, map, replicate, slice_get};
ghost use Rattle.iseq_types.specs.declared.sequences.Line.{Line};
ghost use Rattle.iseq_types.specs.Depths.{AreRooms, Clashes, DepthAt, FindsEntries, FindsFollowing, FindsNext, FindsRow, FindsRows, FindsStart, HasFollowing, IsTable, KeepsDepths, LeadsOn, Reaches, SoFar, span_of};
ghost use Rattle.iseq_types.specs.Instructions.{takes_of};
ghost use Rattle.iseq_types.specs.Sound.{FindsEnough, HasOneDepth, IsInside, IsOrdered};
ghost use Rattle.iseq_types.specs.Ways.{start_depth};

use crate::spans::{Span, spans_hold};
use crate::{CatchKind, CatchRow, Line, SeqKind, Sequence};
use bs_outside::Items;
use std::alloc::{AllocError, Global};

/// The search for the depths in a body of this kind: those found so far, one for each place, and
/// the places from which it was not yet looked where they lead.
#[derive(Drop)]
pub(crate) struct Depths {
    kind: SeqKind,
    found: Items<Option<u128>>,
    waiting: Items<usize>,
}

/// No depth is known yet.
fn unknown(alloc: Global, places: usize) -> Result<Items<Option<u128>>, AllocError>
    ensures { IfOk result (λ found. found ≡ replicate places None) }
{
    let mut found = Items::new(alloc);
    for _ in 0..places {
        found.push(None)?;
    }
    Ok(found)
}

/// A way leads to the place with this depth. Answers whether all ways so far have one depth there.
fn reach(depths: &mut Depths, place: usize, depth: u128) -> Result<bool, AllocError>
    requires { place < length depths.old.found }
    ensures one { IfOk result (λ yes. OnTrue yes (Reaches depths.old depths.new place depth)) }
    ensures two { IfOk result (λ yes. OnFalse yes (Clashes depths.old.found place depth)) }
{
    match depths.found.as_slice()[place] {
        Some(known) => Ok(known == depth),
        None => {
            depths.found.set(place, Some(depth));
            depths.waiting.push(place)?;
            Ok(true)
        }
    }
}

/// The depth at which a sequence of this kind begins.
fn start_depth(kind: SeqKind) -> u128
    ensures { result ≡ start_depth kind }
{
    match kind {
        SeqKind::Rescue => 1,
        _ => 0,
    }
}

/// A way begins at the first place.
fn reach_start(depths: &mut Depths, seq: &Sequence) -> Result<bool, AllocError>
    requires some { 0 < length seq.now.code }
    requires so_far { SoFar seq.now [] depths.old }
    ensures one { IfOk result (λ yes. OnTrue yes (FindsStart seq.now depths.old depths.new)) }
    ensures two { IfOk result (λ yes. OnFalse yes (¬ HasOneDepth seq.now depths.old.kind)) }
{
    let depth = start_depth(depths.kind);
    reach(depths, 0, depth)
}

/// Ways begin at the entries, with nothing on the stack.
fn reach_entries(depths: &mut Depths, seq: &Sequence) -> Result<bool, AllocError>
    requires inside { IsInside seq.now }
    requires so_far { SoFar seq.now [] depths.old }
    ensures one { IfOk result (λ yes. OnTrue yes (FindsEntries seq.now seq.now.entries depths.old depths.new)) }
    ensures two { IfOk result (λ yes. OnFalse yes (¬ HasOneDepth seq.now depths.old.kind)) }
{
    for entry in seq.entries.as_slice() {
        if !reach(depths, *entry as usize, 0)? {
            return Ok(false);
        }
    }
    Ok(true)
}

/// Ways go on where the row says, and begin again where a rescue row begins.
fn reach_row(depths: &mut Depths, seq: &Sequence, row: &CatchRow) -> Result<bool, AllocError>
    requires row { Contains seq.now.rows row.now }
    requires inside { IsInside seq.now }
    requires so_far { SoFar seq.now [] depths.old }
    ensures one { IfOk result (λ yes. OnTrue yes (FindsRow seq.now row.now depths.old depths.new)) }
    ensures two { IfOk result (λ yes. OnFalse yes (¬ HasOneDepth seq.now depths.old.kind)) }
{
    if !reach(depths, row.cont as usize, row.sp as u128 + 1)? {
        return Ok(false);
    }
    match row.kind {
        CatchKind::Rescue => reach(depths, row.from as usize, row.sp as u128),
        _ => Ok(true),
    }
}

/// The same for each row.
fn reach_rows(depths: &mut Depths, seq: &Sequence) -> Result<bool, AllocError>
    requires inside { IsInside seq.now }
    requires so_far { SoFar seq.now [] depths.old }
    ensures one { IfOk result (λ yes. OnTrue yes (FindsRows seq.now seq.now.rows depths.old depths.new)) }
    ensures two { IfOk result (λ yes. OnFalse yes (¬ HasOneDepth seq.now depths.old.kind)) }
{
    for row in seq.rows.as_slice() {
        if !reach_row(depths, seq, row)? {
            return Ok(false);
        }
    }
    Ok(true)
}

/// A way leads to the next place, with this depth after the instruction, where the instruction goes
/// on and a next place is there.
fn reach_following(
    depths: &mut Depths,
    seq: &Sequence,
    line: &Line,
    place: usize,
    after: u128,
) -> Result<bool, AllocError>
    requires line { slice_get seq.now.code place ≡ Some line.now }
    requires on { LeadsOn seq.now place line.now after depths.old }
    ensures one { IfOk result (λ yes. OnTrue yes (FindsFollowing seq.now place line.now after depths.old depths.new)) }
    ensures two { IfOk result (λ yes. OnFalse yes (¬ HasOneDepth seq.now depths.old.kind)) }
{
    let places = seq.code.len();
    if !line.instr.goes_on() || places - place < 2 {
        return Ok(true);
    }
    reach(depths, place + 1, after)
}

/// A way leads to the target, where the instruction has one.
fn reach_target(
    depths: &mut Depths,
    seq: &Sequence,
    line: &Line,
    place: usize,
    after: u128,
) -> Result<bool, AllocError>
    requires inside { IsInside seq.now }
    requires line { slice_get seq.now.code place ≡ Some line.now }
    requires on { LeadsOn seq.now place line.now after depths.old }
    requires next { HasFollowing seq.now place line.now after depths.old }
    ensures one { IfOk result (λ yes. OnTrue yes (FindsNext seq.now depths.old depths.new)) }
    ensures two { IfOk result (λ yes. OnFalse yes (¬ HasOneDepth seq.now depths.old.kind)) }
{
    match line.instr.target() {
        Some(target) => reach(depths, target as usize, after),
        None => Ok(true),
    }
}

/// The ways from a place to where its instruction leads. Answers no where it finds too little on
/// the stack, too.
fn reach_next(depths: &mut Depths, seq: &Sequence, place: usize) -> Result<bool, AllocError>
    requires inside { IsInside seq.now }
    requires within { place < length seq.now.code }
    requires so_far { SoFar seq.now (place ∷ []) depths.old }
    ensures one { IfOk result (λ yes. OnTrue yes (FindsNext seq.now depths.old depths.new)) }
    ensures two { IfOk result (λ yes. OnFalse yes (FindsEnough seq.now depths.old.kind → ¬ HasOneDepth seq.now depths.old.kind)) }
{
    let Some(depth) = depths.found.as_slice()[place] else {
        return Ok(true);
    };
    let line = &seq.code.as_slice()[place];
    if depth < line.instr.needs() {
        return Ok(false);
    }
    let after = depth - line.instr.takes() + line.instr.leaves();
    if !reach_following(depths, seq, line, place, after)? {
        return Ok(false);
    }
    reach_target(depths, seq, line, place, after)
}

/// The depth at each place that some way leads to, or nothing where a place has two depths or too
/// little on the stack. Each place is looked at once, when its depth is first known.
fn depths_of(
    alloc: Global,
    seq: &Sequence,
    kind: SeqKind,
) -> Result<Option<Items<Option<u128>>>, AllocError>
    requires some { 0 < length seq.now.code }
    requires inside { IsInside seq.now }
    ensures found { IfOk result (λ answer. IfSome answer (IsTable seq.now kind)) }
    ensures none { IfOk result (λ answer. IfNone answer (FindsEnough seq.now kind → ¬ HasOneDepth seq.now kind)) }
{
    let mut depths = Depths {
        kind,
        found: unknown(alloc, seq.code.len())?,
        waiting: Items::new(alloc),
    };
    if !reach_start(&mut depths, seq)?
        || !reach_entries(&mut depths, seq)?
        || !reach_rows(&mut depths, seq)?
    {
        return Ok(None);
    }
    'waiting: while let Some(place) = depths.waiting.pop() {
        if !reach_next(&mut depths, seq, place)? {
            return Ok(None);
        }
    }
    Ok(Some(depths.found))
}

/// How far down the stack each instruction leaves it alone, or the greatest number where no way
/// leads to it.
fn rooms_of(alloc: Global, code: &[Line], found: &[Option<u128>]) -> Result<Vec<u128>, AllocError>
    requires long { length found.now ≡ length code.now }
    requires enough { (place depth : ℕ) (line : Line) → DepthAt found.now place depth → slice_get code.now place ≡ Some line → takes_of line.instr ≤ depth }
    ensures { IfOk result (λ rooms. AreRooms code.now found.now rooms.items) }
{
    let mut rooms = Vec::new(alloc);
    for place in 0..code.len() {
        rooms.push(match found[place] {
            Some(depth) => depth - code[place].instr.takes(),
            None => u128::MAX,
        })?;
    }
    Ok(rooms)
}

/// The range of a row, and the depth that it keeps.
fn span_of(row: &CatchRow) -> Span
    ensures span { result ≡ span_of row.now }
    ensures small { row.now.sp < 2 ^ 64 }
{
    Span {
        from: row.from as usize,
        to: row.to as usize,
        floor: row.sp as u128,
    }
}

/// Those of all rows.
fn spans_of(alloc: Global, rows: &[CatchRow]) -> Result<Vec<Span>, AllocError>
    ensures spans { IfOk result (λ spans. spans.items ≡ map span_of rows.now) }
    ensures small { OnOk result (All (λ row. row.sp < 2 ^ 64) rows.now) }
{
    let mut spans = Vec::new(alloc);
    for row in rows {
        spans.push(span_of(row))?;
    }
    Ok(spans)
}

/// Whether each place has one depth on all ways to it, enough for its instruction and for the rows
/// that hold it.
pub(crate) fn depths_are_kept(
    alloc: Global,
    seq: &Sequence,
    kind: SeqKind,
) -> Result<bool, AllocError>
    requires some { 0 < length seq.now.code }
    requires inside { IsInside seq.now }
    requires ordered { All IsOrdered seq.now.rows }
    ensures { IfOk result (λ yes. IsTrue yes ↔ KeepsDepths seq.now kind) }
{
    let Some(found) = depths_of(alloc, seq, kind)? else {
        return Ok(false);
    };
    let rooms = rooms_of(alloc, seq.code.as_slice(), found.as_slice())?;
    let spans = spans_of(alloc, seq.rows.as_slice())?;
    spans_hold(alloc, rooms, spans)
}

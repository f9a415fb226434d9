//! Whether numbers at places are large enough over many spans of places at once.
ghost use Rattle.std.specs.Prelude.{◌≡◌, ◌↔◌, ◌<◌, ◌≤◌, ◌/◌, ℕ, IsTrue, IfOk, IfSome, IfNone, All, length};
ghost use Rattle.iseq_types.specs.Spans.{EndsHold, Halves, HoldsOver, IsWithin, Narrows, pairs_of};

use std::alloc::{AllocError, Global};

/// The places from `from` on and below `to`, and the number that none of them may be below.
#[derive(Clone, Copy)]
pub(crate) struct Span {
    pub(crate) from: usize,
    pub(crate) to: usize,
    pub(crate) floor: u128,
}

/// The smaller of the numbers at each two places that belong together, 0 and 1, 2 and 3 and so on.
fn halves(alloc: Global, rooms: &[u128]) -> Result<Vec<u128>, AllocError>
    ensures { IfOk result (λ half. Halves rooms.now half.items) }
{
    let mut half = Vec::new(alloc);
    for pair in 0..rooms.len() / 2 {
        half.push(rooms[2 * pair].min(rooms[2 * pair + 1]))?;
    }
    Ok(half)
}

/// Whether the numbers at the ends of a span are large enough, where such an end is no whole pair.
fn ends_hold(rooms: &[u128], span: Span) -> bool
    requires { IsWithin (length rooms.now) span }
    ensures { IsTrue result ↔ EndsHold rooms.now span }
{
    (span.from % 2 == 0 || span.floor <= rooms[span.from])
        && (span.to % 2 == 0 || span.floor <= rooms[span.to - 1])
}

/// The pairs that lie in the span whole.
fn whole_pairs(span: Span) -> Span
    requires { span.from < span.to }
    ensures { result ≡ pairs_of span }
{
    Span {
        from: span.from / 2 + span.from % 2,
        to: span.to / 2,
        floor: span.floor,
    }
}

/// The same question over half as many places, or nothing where some number is too small.
fn narrowed(alloc: Global, rooms: &[u128], spans: &[Span]) -> Result<Option<Vec<Span>>, AllocError>
    requires { All (IsWithin (length rooms.now)) spans.now }
    ensures narrows { IfOk result (λ answer. IfSome answer (λ inner. Narrows rooms.now spans.now inner.items)) }
    ensures fails { IfOk result (λ answer. IfNone answer (¬ All (HoldsOver rooms.now) spans.now)) }
{
    let mut inner = Vec::new(alloc);
    for span in spans {
        if !ends_hold(rooms, *span) {
            return Ok(None);
        }
        let next = whole_pairs(*span);
        if next.from < next.to {
            inner.push(next)?;
        }
    }
    Ok(Some(inner))
}

/// Whether over each span no number is below the span's floor. Each turn has half the places of the
/// one before, so that all together cost as much as the places, and as the spans times the digits
/// of their lengths.
pub(crate) fn spans_hold(
    alloc: Global,
    mut rooms: Vec<u128>,
    mut spans: Vec<Span>,
) -> Result<bool, AllocError>
    requires { All (IsWithin (length rooms.items)) spans.items }
    ensures { IfOk result (λ yes. IsTrue yes ↔ All (HoldsOver rooms.items) spans.items) }
{
    'halving: while !spans.is_empty() {
        let Some(inner) = narrowed(alloc, &rooms, &spans)? else {
            return Ok(false);
        };
        spans = inner;
        rooms = halves(alloc, &rooms)?;
    }
    Ok(true)
}

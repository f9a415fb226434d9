//! The environments outward of the sequences of a unit.
ghost use Rattle.std.specs.Prelude.{◌≡◌, ◌↔◌, ◌<◌, Some, IsTrue, IfOk, length, slice_get};
ghost use Rattle.iseq_types.specs.Homes.{AreEnvironments, AreFirstHomes, AreHomes, IsHome};
ghost use Rattle.iseq_types.specs.Index.{AreIndexRows, HasLocal};

use crate::{IndexRow, SeqKind};
use bs_outside::Items;
use std::alloc::{AllocError, Global};

/// The environment that a sequence runs in: it belongs to the sequence `of`, and so many lie around it.
/// The sequence `outer` runs in the next one outward, and the sequence `jump` in that one or further
/// outward. Where none lies around it, both run in it.
#[derive(Clone, Copy)]
pub(crate) struct Home {
    of: usize,
    around: usize,
    outer: usize,
    jump: usize,
}

/// The environments that the sequences of a unit run in, prepared from its index for the checks of
/// its bodies.
#[derive(Drop)]
pub struct Environments {
    homes: Items<Home>,
}

/// The environment of the sequence of this number, one of those in the list.
fn home_of(homes: &[Home], id: usize) -> Home
    requires { id < length homes.now }
    ensures { slice_get homes.now id ≡ Some result }
{
    homes[id]
}

/// The environment of a block. Where the two jumps from what it stands in are equally long, its own
/// is as long as both and one step; else it is one step. So a way outward takes no more than about
/// twice as many jumps and steps as its length has binary digits.
fn block_home(rows: &[IndexRow], homes: &[Home], row: IndexRow) -> Home
    requires below { length homes.now < length rows.now }
    requires index { AreIndexRows rows.now }
    requires homes { AreFirstHomes rows.now homes.now }
    requires row { slice_get rows.now (length homes.now) ≡ Some row }
    requires block { row.kind ≡ SeqKind.Block }
    ensures { IsHome rows.now (length homes.now) result }
{
    let id = homes.len();
    let outer = home_of(homes, row.parent);
    let near = home_of(homes, outer.jump);
    let far = home_of(homes, near.jump);
    let is_even = outer.around - near.around == near.around - far.around;
    Home {
        of: id,
        around: outer.around + 1,
        outer: row.parent,
        jump: if is_even { near.jump } else { row.parent },
    }
}

/// The environment of the first sequence that is not in the list.
fn next_home(rows: &[IndexRow], homes: &[Home]) -> Home
    requires below { length homes.now < length rows.now }
    requires index { AreIndexRows rows.now }
    requires homes { AreFirstHomes rows.now homes.now }
    ensures { IsHome rows.now (length homes.now) result }
{
    let id = homes.len();
    let row = rows[id];
    match row.kind {
        SeqKind::Rescue | SeqKind::Ensure => home_of(homes, row.parent),
        SeqKind::Block => block_home(rows, homes, row),
        SeqKind::File | SeqKind::Method | SeqKind::Class => Home {
            of: id,
            around: 0,
            outer: id,
            jump: id,
        },
    }
}

impl Environments {
    /// Those of the unit with this index. The cost is linear in the rows.
    pub fn new(alloc: Global, rows: &[IndexRow]) -> Result<Environments, AllocError>
        requires { AreIndexRows rows.now }
        ensures { IfOk result (AreEnvironments rows.now) }
    {
        let mut homes = Items::new(alloc);
        for _ in 0..rows.len() {
            let next = next_home(rows, homes.as_slice());
            homes.push(next)?;
        }
        Ok(Environments { homes })
    }

    /// Whether there is an environment so many levels outward of the sequence of number `id`, and it has
    /// this slot.
    pub(crate) fn has_local(&self, rows: &[IndexRow], id: usize, slot: u64, level: u64) -> bool
        requires below { id < length rows.now }
        requires index { AreIndexRows rows.now }
        requires environments { AreEnvironments rows.now self.now }
        ensures { IsTrue result ↔ HasLocal rows.now id slot level }
    {
        let homes = self.homes.as_slice();
        let mut at = home_of(homes, id);
        if level > at.around as u64 {
            return false;
        }
        let target = at.around - level as usize;
        'outward: while at.around > target {
            let far = home_of(homes, at.jump);
            at = if far.around >= target {
                far
            } else {
                home_of(homes, at.outer)
            };
        }
        slot < rows[at.of].locals
    }
}

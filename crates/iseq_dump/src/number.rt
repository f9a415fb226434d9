//! Numbers in LEB128.
ghost use Rattle.std.specs.Prelude.{◌≡◌, ◌+◌, ◌≤◌, ◌++◌, ◌<◌, ◌^◌, length, OnOk};
ghost use Rattle.iseq_dump.specs.Reading.{Gives, groups_at, number_at};
ghost use Rattle.iseq_dump.specs.Dump.{groups, number_bytes};

use crate::cursor::Cursor;
use crate::fault::ReadError;
use bs_outside::Steps;
use std::alloc::AllocError;
use std::sync::ledger::Ledger;

/// A number has at most ten groups of seven bits.
const MORE_GROUPS: u32 = 9;

/// The number of at most `more` groups and one.
fn read_groups<L: Ledger>(
    cursor: &mut Cursor<'_>,
    more: u32,
    steps: &mut Steps<L>,
) -> Result<u64, ReadError>
    ensures value { Gives (λ n. n) result cursor.new (groups_at more cursor.old) }
    ensures taken { steps.new + length cursor.new ≤ steps.old + length cursor.old }
{
    let byte = cursor.byte(steps)?;
    if byte < 128 {
        return Ok(u64::from(byte));
    }
    if more == 0 {
        return Err(ReadError::NotSpelled);
    }
    let high = read_groups(cursor, more - 1, steps)?;
    if high == 0 || high >= 1 << 57 {
        return Err(ReadError::NotSpelled);
    }
    Ok(high * 128 + u64::from(byte - 128))
}

/// The number at the front.
#[tactic(auto, unfolding(crate::specs::Reading::number_at))]
pub fn read_number<L: Ledger>(
    cursor: &mut Cursor<'_>,
    steps: &mut Steps<L>,
) -> Result<u64, ReadError>
    ensures value { Gives (λ n. n) result cursor.new (number_at cursor.old) }
    ensures taken { steps.new + length cursor.new ≤ steps.old + length cursor.old }
{
    read_groups(cursor, MORE_GROUPS, steps)
}

/// Puts a number behind what is there.
pub fn put_number(number: u64, out: &mut Vec<u8>) -> Result<(), AllocError>
    ensures { OnOk result (out.new.items ≡ out.old.items ++ number_bytes number) }
{
    let mut left = number;
    while left >= 128 {
        out.push((left % 128) as u8 + 128)?;
        left /= 128;
    }
    out.push(left as u8)?;
    Ok(())
}

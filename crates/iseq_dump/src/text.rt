//! Numbers and texts as parts.
ghost use Rattle.std.specs.Prelude.{◌≡◌, ◌+◌, ◌≤◌, ◌-◌, length, take, drop, IfOk};

use crate::cursor::Cursor;
use crate::fault::ReadError;
use crate::number::{put_number, read_number};
use crate::part::Part;
use bs_outside::{Steps, Text};
use std::alloc::{AllocError, Global};
use std::sync::ledger::Ledger;

impl Part for u64 {
    ghost use Rattle.std.specs.Prelude.{⊤};
    ghost use Rattle.iseq_dump.specs.Dump.{IsNumber, number_bytes};
    ghost use Rattle.iseq_dump.specs.Reading.{number_at};

    ghost fits = { IsNumber };

    ghost bytes = { number_bytes };

    ghost at = { number_at };

    ghost allowed = { λ _. ⊤ };

    fn put(&self, out: &mut Vec<u8>) -> Result<(), AllocError> {
        put_number(*self, out)
    }

    fn read<L: Ledger>(
        _alloc: Global,
        cursor: &mut Cursor<'_>,
        steps: &mut Steps<L>,
    ) -> Result<u64, ReadError> {
        read_number(cursor, steps)
    }
}

/// Takes so many bytes.
fn take_bytes<L: Ledger>(
    alloc: Global,
    count: u64,
    cursor: &mut Cursor<'_>,
    steps: &mut Steps<L>,
) -> Result<Vec<u8>, AllocError>
    requires { count ≤ length cursor.old }
    ensures bytes { IfOk result (λ bytes. bytes.items ≡ take count cursor.old) }
    ensures rest { IfOk result (λ bytes. cursor.new ≡ drop count cursor.old) }
    ensures taken { steps.new + length cursor.new ≤ steps.old + length cursor.old }
{
    let mut bytes = Vec::with_capacity(alloc, count as usize)?;
    for _ in 0..count {
        bytes.push(cursor.take(steps))?;
    }
    Ok(bytes)
}

impl Part for Text {
    ghost use Rattle.std.specs.Prelude.{⊤};
    ghost use Rattle.iseq_dump.specs.Dump.{IsText, text_bytes};
    ghost use Rattle.iseq_dump.specs.Reading.{text_at};

    ghost fits = { IsText };

    ghost bytes = { text_bytes };

    ghost at = { text_at };

    ghost allowed = { λ _. ⊤ };

    fn put(&self, out: &mut Vec<u8>) -> Result<(), AllocError> {
        put_number(self.len() as u64, out)?;
        out.extend_from_slice(self.as_slice())
    }

    fn read<L: Ledger>(
        alloc: Global,
        cursor: &mut Cursor<'_>,
        steps: &mut Steps<L>,
    ) -> Result<Text, ReadError> {
        let count = read_number(cursor, steps)?;
        if cursor.len() < count {
            return Err(ReadError::NotSpelled);
        }
        let bytes = take_bytes(alloc, count, cursor, steps)?;
        Ok(Text::from_vec(bytes))
    }
}

//! Catch rows, lines and bodies as parts.
ghost use Rattle.std.specs.Prelude.{◌≡◌, ◌+◌, ◌≤◌, ◌++◌, length, OnOk};
ghost use Rattle.iseq_dump.specs.Dump.{catch_byte, flag_byte};
ghost use Rattle.iseq_dump.specs.Reading.{Gives, catch_kind_at, may_name, flags_at};

use crate::cursor::Cursor;
use crate::fault::ReadError;
use crate::number::{put_number, read_number};
use crate::part::{Part, put_list, read_list};
use bs_outside::{Steps, Text};
use iseq_types::{CatchKind, CatchRow, Instr, Line, Sequence};
use std::alloc::{AllocError, Global};
use std::sync::ledger::Ledger;

fn byte_of(kind: CatchKind) -> u8
    ensures { result ≡ catch_byte kind }
{
    match kind {
        CatchKind::Rescue => 0,
        CatchKind::Ensure => 1,
        CatchKind::Break => 2,
        CatchKind::Next => 3,
    }
}

#[tactic(auto, unfolding(crate::specs::Reading::catch_kind_at))]
fn read_catch_kind<L: Ledger>(
    cursor: &mut Cursor<'_>,
    steps: &mut Steps<L>,
) -> Result<CatchKind, ReadError>
    ensures value { Gives (λ k. k) result cursor.new (catch_kind_at cursor.old) }
    ensures taken { steps.new + length cursor.new ≤ steps.old + length cursor.old }
{
    match cursor.byte(steps)? {
        0 => Ok(CatchKind::Rescue),
        1 => Ok(CatchKind::Ensure),
        2 => Ok(CatchKind::Break),
        3 => Ok(CatchKind::Next),
        _ => Err(ReadError::NotSpelled),
    }
}

/// Whether a row of this kind may have this sequence: a break or next row has 0.
fn may_have(kind: CatchKind, sequence: u64) -> bool
    ensures { result ≡ may_name kind sequence }
{
    match kind {
        CatchKind::Rescue | CatchKind::Ensure => true,
        CatchKind::Break | CatchKind::Next => sequence == 0,
    }
}

impl Part for CatchRow {
    ghost use Rattle.iseq_dump.specs.Dump.{IsRow, IsAllowedRow, row_bytes};
    ghost use Rattle.iseq_dump.specs.Reading.{row_at};

    ghost fits = { IsRow };

    ghost bytes = { row_bytes };

    ghost at = { row_at };

    ghost allowed = { IsAllowedRow };

    fn put(&self, out: &mut Vec<u8>) -> Result<(), AllocError> {
        out.push(byte_of(self.kind))?;
        put_number(self.from, out)?;
        put_number(self.to, out)?;
        put_number(self.cont, out)?;
        put_number(self.sp, out)?;
        put_number(self.seq, out)
    }

    #[tactic(auto, unfolding(crate::specs::Reading::row_at))]
    fn read<L: Ledger>(
        _alloc: Global,
        cursor: &mut Cursor<'_>,
        steps: &mut Steps<L>,
    ) -> Result<CatchRow, ReadError> {
        let kind = read_catch_kind(cursor, steps)?;
        let from = read_number(cursor, steps)?;
        let to = read_number(cursor, steps)?;
        let cont = read_number(cursor, steps)?;
        let sp = read_number(cursor, steps)?;
        let seq = read_number(cursor, steps)?;
        if may_have(kind, seq) {
            Ok(CatchRow {
                kind,
                from,
                to,
                cont,
                sp,
                seq,
            })
        } else {
            Err(ReadError::NotSpelled)
        }
    }
}

impl Part for Line {
    ghost use Rattle.std.specs.Prelude.{⊤};
    ghost use Rattle.iseq_dump.specs.Dump.{IsLine, line_bytes};
    ghost use Rattle.iseq_dump.specs.Reading.{line_at};

    ghost fits = { IsLine };

    ghost bytes = { line_bytes };

    ghost at = { line_at };

    ghost allowed = { λ _. ⊤ };

    fn put(&self, out: &mut Vec<u8>) -> Result<(), AllocError> {
        put_number(self.line, out)?;
        self.instr.put(out)
    }

    #[tactic(auto, unfolding(crate::specs::Reading::line_at))]
    fn read<L: Ledger>(
        alloc: Global,
        cursor: &mut Cursor<'_>,
        steps: &mut Steps<L>,
    ) -> Result<Line, ReadError> {
        let line = read_number(cursor, steps)?;
        let instr = Instr::read(alloc, cursor, steps)?;
        Ok(Line { line, instr })
    }
}

/// The flags of a rest and of a block parameter.
fn flags_of(rest: bool, block: bool) -> u8
    ensures { result ≡ flag_byte rest block }
{
    u8::from(rest) + 2 * u8::from(block)
}

#[tactic(auto, unfolding(crate::specs::Reading::flags_at))]
fn read_flags<L: Ledger>(
    cursor: &mut Cursor<'_>,
    steps: &mut Steps<L>,
) -> Result<(bool, bool), ReadError>
    ensures value { Gives (λ f. (f.0, f.1)) result cursor.new (flags_at cursor.old) }
    ensures taken { steps.new + length cursor.new ≤ steps.old + length cursor.old }
{
    match cursor.byte(steps)? {
        0 => Ok((false, false)),
        1 => Ok((true, false)),
        2 => Ok((false, true)),
        3 => Ok((true, true)),
        _ => Err(ReadError::NotSpelled),
    }
}

impl Part for Sequence {
    ghost use Rattle.iseq_dump.specs.Dump.{IsBody, IsAllowedBody, body_bytes};
    ghost use Rattle.iseq_dump.specs.Reading.{body_at};

    ghost fits = { IsBody };

    ghost bytes = { body_bytes };

    ghost at = { body_at };

    ghost allowed = { IsAllowedBody };

    fn put(&self, out: &mut Vec<u8>) -> Result<(), AllocError> {
        self.name.put(out)?;
        put_number(self.first_line, out)?;
        put_list(self.locals.as_slice(), out)?;
        put_number(self.required, out)?;
        put_list(self.entries.as_slice(), out)?;
        out.push(flags_of(self.rest, self.block))?;
        put_list(self.rows.as_slice(), out)?;
        put_list(self.code.as_slice(), out)?;
        Ok(())
    }

    #[tactic(auto, unfolding(crate::specs::Reading::body_at))]
    fn read<L: Ledger>(
        alloc: Global,
        cursor: &mut Cursor<'_>,
        steps: &mut Steps<L>,
    ) -> Result<Sequence, ReadError> {
        let name = Text::read(alloc, cursor, steps)?;
        let first_line = read_number(cursor, steps)?;
        let locals = read_list(alloc, cursor, steps)?;
        let required = read_number(cursor, steps)?;
        let entries = read_list(alloc, cursor, steps)?;
        let (rest, block) = read_flags(cursor, steps)?;
        let rows = read_list(alloc, cursor, steps)?;
        let code = read_list(alloc, cursor, steps)?;
        Ok(Sequence {
            name,
            first_line,
            locals,
            required,
            entries,
            rest,
            block,
            rows,
            code,
        })
    }
}

//! Literals and instructions as parts.
ghost use Rattle.std.specs.Prelude.{◌≡◌, ◌+◌, ◌≤◌, ◌++◌, length, OnOk};
ghost use Rattle.iseq_dump.specs.Dump.{Puts, IsNumber, IsList, IsInstr, number_bytes, list_bytes, operand_bytes, opcode_of, zigzag};
ghost use Rattle.iseq_dump.specs.Reading.{Gives, Finds, of_code, alone, numbered, worded, placed, spread, defining, call_at, above_at, shaped_at, integer_of, made_of};

use crate::cursor::Cursor;
use crate::fault::ReadError;
use crate::number::{put_number, read_number};
use crate::part::{Part, put_list, read_list};
use crate::shapes::{Shape, shape_of};
use bs_outside::{Items, Steps, Text};
use iseq_types::{Instr, Literal};
use std::alloc::{AllocError, Global};
use std::sync::ledger::Ledger;

/// An integer as a number: 0, -1, 1, -2, 2 and so on.
fn zigzag_of(value: i64) -> u64
    ensures { result ≡ zigzag value }
{
    if value < 0 {
        (value.unsigned_abs() - 1) * 2 + 1
    } else {
        value.unsigned_abs() * 2
    }
}

fn integer(number: u64) -> i64
    ensures { result ≡ integer_of number }
{
    let half = (number / 2) as i64;
    if number % 2 == 0 { half } else { -1 - half }
}

impl Part for Literal {
    ghost use Rattle.std.specs.Prelude.{⊤};
    ghost use Rattle.iseq_dump.specs.Dump.{IsLiteral, literal_bytes};
    ghost use Rattle.iseq_dump.specs.Reading.{literal_at};

    ghost fits = { IsLiteral };

    ghost bytes = { literal_bytes };

    ghost at = { literal_at };

    ghost allowed = { λ _. ⊤ };

    fn put(&self, out: &mut Vec<u8>) -> Result<(), AllocError> {
        match self {
            Literal::True => out.push(1)?,
            Literal::False => out.push(2)?,
            Literal::Int(value) => {
                out.push(3)?;
                put_number(zigzag_of(*value), out)?;
            }
            Literal::Sym(name) => {
                out.push(4)?;
                name.put(out)?;
            }
        }
        Ok(())
    }

    #[tactic(auto, unfolding(crate::specs::Reading::literal_at))]
    fn read<L: Ledger>(
        alloc: Global,
        cursor: &mut Cursor<'_>,
        steps: &mut Steps<L>,
    ) -> Result<Literal, ReadError> {
        match cursor.byte(steps)? {
            1 => Ok(Literal::True),
            2 => Ok(Literal::False),
            3 => Ok(Literal::Int(integer(read_number(cursor, steps)?))),
            4 => Ok(Literal::Sym(Text::read(alloc, cursor, steps)?)),
            _ => Err(ReadError::NotSpelled),
        }
    }
}

fn alone_of(opcode: u8) -> Result<Instr, ReadError>
    ensures { Finds result (of_code opcode alone) }
{
    match opcode {
        0 => Ok(Instr::Nop),
        1 => Ok(Instr::Pop),
        2 => Ok(Instr::Dup),
        3 => Ok(Instr::Swap),
        7 => Ok(Instr::PutNil),
        8 => Ok(Instr::PutSelf),
        23 => Ok(Instr::ObjToString),
        24 => Ok(Instr::AnyToString),
        30 => Ok(Instr::CheckMatch),
        36 => Ok(Instr::Leave),
        _ => Err(ReadError::NotSpelled),
    }
}

fn numbered_of(opcode: u8, n: u64) -> Result<Instr, ReadError>
    ensures { Finds result (made_of opcode numbered (λ make. make n)) }
{
    match opcode {
        4 => Ok(Instr::TopN(n)),
        5 => Ok(Instr::SetN(n)),
        6 => Ok(Instr::AdjustStack(n)),
        20 => Ok(Instr::NewHash(n)),
        21 => Ok(Instr::NewRange(n)),
        22 => Ok(Instr::ConcatStrings(n)),
        31 => Ok(Instr::Jump(n)),
        32 => Ok(Instr::BranchIf(n)),
        33 => Ok(Instr::BranchUnless(n)),
        34 => Ok(Instr::BranchNil(n)),
        35 => Ok(Instr::Throw(n)),
        37 => Ok(Instr::ExpandArray(n)),
        _ => Err(ReadError::NotSpelled),
    }
}

fn worded_of(opcode: u8, word: Text) -> Result<Instr, ReadError>
    ensures { Finds result (made_of opcode worded (λ make. make word)) }
{
    match opcode {
        10 => Ok(Instr::PutString(word)),
        13 => Ok(Instr::GetInstanceVariable(word)),
        14 => Ok(Instr::SetInstanceVariable(word)),
        15 => Ok(Instr::GetGlobal(word)),
        16 => Ok(Instr::SetGlobal(word)),
        17 => Ok(Instr::SetConstant(word)),
        _ => Err(ReadError::NotSpelled),
    }
}

fn placed_of(opcode: u8, slot: u64, level: u64) -> Result<Instr, ReadError>
    ensures { Finds result (made_of opcode placed (λ make. make slot level)) }
{
    match opcode {
        11 => Ok(Instr::GetLocal(slot, level)),
        12 => Ok(Instr::SetLocal(slot, level)),
        _ => Err(ReadError::NotSpelled),
    }
}

fn spread_of(opcode: u8, count: u64, splats: Items<u64>) -> Result<Instr, ReadError>
    ensures { Finds result (made_of opcode spread (λ make. make count splats)) }
{
    match opcode {
        19 => Ok(Instr::NewArray(count, splats)),
        27 => Ok(Instr::InvokeBlock(count, splats)),
        _ => Err(ReadError::NotSpelled),
    }
}

fn defining_of(opcode: u8, name: Text, sequence: u64, flag: u64) -> Result<Instr, ReadError>
    ensures { Finds result (made_of opcode defining (λ make. make name sequence flag)) }
{
    match opcode {
        28 => Ok(Instr::DefineMethod(name, sequence, flag)),
        29 => Ok(Instr::DefineClass(name, sequence, flag)),
        _ => Err(ReadError::NotSpelled),
    }
}

#[tactic(auto, unfolding(crate::specs::Reading::call_at))]
fn read_call<L: Ledger>(
    alloc: Global,
    cursor: &mut Cursor<'_>,
    steps: &mut Steps<L>,
) -> Result<Instr, ReadError>
    ensures value { Gives (λ i. i) result cursor.new (call_at cursor.old) }
    ensures taken { steps.new + length cursor.new ≤ steps.old + length cursor.old }
{
    let name = Text::read(alloc, cursor, steps)?;
    let count = read_number(cursor, steps)?;
    let splats = read_list(alloc, cursor, steps)?;
    let flags = read_number(cursor, steps)?;
    let block = read_number(cursor, steps)?;
    Ok(Instr::Send(name, count, splats, flags, block))
}

#[tactic(auto, unfolding(crate::specs::Reading::above_at))]
fn read_above<L: Ledger>(
    alloc: Global,
    cursor: &mut Cursor<'_>,
    steps: &mut Steps<L>,
) -> Result<Instr, ReadError>
    ensures value { Gives (λ i. i) result cursor.new (above_at cursor.old) }
    ensures taken { steps.new + length cursor.new ≤ steps.old + length cursor.old }
{
    let count = read_number(cursor, steps)?;
    let splats = read_list(alloc, cursor, steps)?;
    let flags = read_number(cursor, steps)?;
    let block = read_number(cursor, steps)?;
    Ok(Instr::InvokeSuper(count, splats, flags, block))
}

/// Reads the operands of this shape, of an instruction with this opcode.
#[tactic(auto, unfolding(crate::specs::Reading::shaped_at))]
fn read_shaped<L: Ledger>(
    alloc: Global,
    shape: Shape,
    opcode: u8,
    cursor: &mut Cursor<'_>,
    steps: &mut Steps<L>,
) -> Result<Instr, ReadError>
    ensures value { Gives (λ i. i) result cursor.new (shaped_at shape opcode cursor.old) }
    ensures taken { steps.new + length cursor.new ≤ steps.old + length cursor.old }
{
    match shape {
        Shape::Alone => alone_of(opcode),
        Shape::Number => numbered_of(opcode, read_number(cursor, steps)?),
        Shape::Value => Ok(Instr::PutObject(Literal::read(alloc, cursor, steps)?)),
        Shape::Word => worded_of(opcode, Text::read(alloc, cursor, steps)?),
        Shape::Local => {
            let slot = read_number(cursor, steps)?;
            placed_of(opcode, slot, read_number(cursor, steps)?)
        }
        Shape::Path => {
            let first = read_number(cursor, steps)?;
            Ok(Instr::OptGetConstantPath(first, read_list(alloc, cursor, steps)?))
        }
        Shape::Spread => {
            let count = read_number(cursor, steps)?;
            spread_of(opcode, count, read_list(alloc, cursor, steps)?)
        }
        Shape::Call => read_call(alloc, cursor, steps),
        Shape::Above => read_above(alloc, cursor, steps),
        Shape::Definition => {
            let name = Text::read(alloc, cursor, steps)?;
            let sequence = read_number(cursor, steps)?;
            defining_of(opcode, name, sequence, read_number(cursor, steps)?)
        }
    }
}

fn opcode(instr: &Instr) -> u8
    ensures { result ≡ opcode_of instr.now }
{
    match instr {
        Instr::Nop => 0,
        Instr::Pop => 1,
        Instr::Dup => 2,
        Instr::Swap => 3,
        Instr::TopN(_) => 4,
        Instr::SetN(_) => 5,
        Instr::AdjustStack(_) => 6,
        Instr::PutNil => 7,
        Instr::PutSelf => 8,
        Instr::PutObject(_) => 9,
        Instr::PutString(_) => 10,
        Instr::GetLocal(_, _) => 11,
        Instr::SetLocal(_, _) => 12,
        Instr::GetInstanceVariable(_) => 13,
        Instr::SetInstanceVariable(_) => 14,
        Instr::GetGlobal(_) => 15,
        Instr::SetGlobal(_) => 16,
        Instr::SetConstant(_) => 17,
        Instr::OptGetConstantPath(_, _) => 18,
        Instr::NewArray(_, _) => 19,
        Instr::NewHash(_) => 20,
        Instr::NewRange(_) => 21,
        Instr::ConcatStrings(_) => 22,
        Instr::ObjToString => 23,
        Instr::AnyToString => 24,
        Instr::Send(_, _, _, _, _) => 25,
        Instr::InvokeSuper(_, _, _, _) => 26,
        Instr::InvokeBlock(_, _) => 27,
        Instr::DefineMethod(_, _, _) => 28,
        Instr::DefineClass(_, _, _) => 29,
        Instr::CheckMatch => 30,
        Instr::Jump(_) => 31,
        Instr::BranchIf(_) => 32,
        Instr::BranchUnless(_) => 33,
        Instr::BranchNil(_) => 34,
        Instr::Throw(_) => 35,
        Instr::Leave => 36,
        Instr::ExpandArray(_) => 37,
    }
}

/// Puts the operands, one behind the other.
fn put_operands(instr: &Instr, out: &mut Vec<u8>) -> Result<(), AllocError>
    ensures { OnOk result (Puts IsInstr operand_bytes instr.now out.old.items out.new.items) }
{
    match instr {
        Instr::TopN(n)
        | Instr::SetN(n)
        | Instr::AdjustStack(n)
        | Instr::NewHash(n)
        | Instr::NewRange(n)
        | Instr::ConcatStrings(n)
        | Instr::Jump(n)
        | Instr::BranchIf(n)
        | Instr::BranchUnless(n)
        | Instr::BranchNil(n)
        | Instr::Throw(n)
        | Instr::ExpandArray(n) => n.put(out),
        Instr::PutObject(value) => value.put(out),
        Instr::PutString(word)
        | Instr::GetInstanceVariable(word)
        | Instr::SetInstanceVariable(word)
        | Instr::GetGlobal(word)
        | Instr::SetGlobal(word)
        | Instr::SetConstant(word) => word.put(out),
        Instr::GetLocal(slot, level) | Instr::SetLocal(slot, level) => {
            slot.put(out)?;
            level.put(out)
        }
        Instr::OptGetConstantPath(first, names) => {
            first.put(out)?;
            put_list(names.as_slice(), out)
        }
        Instr::NewArray(count, splats) | Instr::InvokeBlock(count, splats) => {
            count.put(out)?;
            put_list(splats.as_slice(), out)
        }
        Instr::Send(name, count, splats, flags, block) => {
            name.put(out)?;
            put_arguments(*count, splats, *flags, *block, out)
        }
        Instr::InvokeSuper(count, splats, flags, block) => {
            put_arguments(*count, splats, *flags, *block, out)
        }
        Instr::DefineMethod(name, sequence, flag) | Instr::DefineClass(name, sequence, flag) => {
            name.put(out)?;
            sequence.put(out)?;
            flag.put(out)
        }
        Instr::Nop
        | Instr::Pop
        | Instr::Dup
        | Instr::Swap
        | Instr::PutNil
        | Instr::PutSelf
        | Instr::ObjToString
        | Instr::AnyToString
        | Instr::CheckMatch
        | Instr::Leave => Ok(()),
    }
}

fn put_arguments(
    count: u64,
    splats: &Items<u64>,
    flags: u64,
    block: u64,
    out: &mut Vec<u8>,
) -> Result<(), AllocError>
    ensures numbers { OnOk result (IsNumber count × IsList IsNumber splats.now × IsNumber flags × IsNumber block) }
    ensures spelled { OnOk result (out.new.items ≡ out.old.items ++ number_bytes count ++ list_bytes number_bytes splats.now ++ number_bytes flags ++ number_bytes block) }
{
    put_number(count, out)?;
    put_list(splats.as_slice(), out)?;
    put_number(flags, out)?;
    put_number(block, out)
}

impl Part for Instr {
    ghost use Rattle.std.specs.Prelude.{⊤};
    ghost use Rattle.iseq_dump.specs.Dump.{IsInstr, instr_bytes};
    ghost use Rattle.iseq_dump.specs.Reading.{instr_at};

    ghost fits = { IsInstr };

    ghost bytes = { instr_bytes };

    ghost at = { instr_at };

    ghost allowed = { λ _. ⊤ };

    fn put(&self, out: &mut Vec<u8>) -> Result<(), AllocError> {
        out.push(opcode(self))?;
        put_operands(self, out)
    }

    #[tactic(auto, unfolding(crate::specs::Reading::instr_at))]
    fn read<L: Ledger>(
        alloc: Global,
        cursor: &mut Cursor<'_>,
        steps: &mut Steps<L>,
    ) -> Result<Instr, ReadError> {
        let opcode = cursor.byte(steps)?;
        let shape = shape_of(opcode)?;
        read_shaped(alloc, shape, opcode, cursor, steps)
    }
}

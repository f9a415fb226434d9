//! Instructions, one at a time.
ghost use Rattle.std.specs.Prelude.{◌≡◌, ◌∷◌, [], Some, None, IfOk, IfSome, MatchOption};
ghost use Rattle.bootsnap_top.specs.Machine.{Ends, with_top, stepped_of, step_of, instr_step, called, pushed, local_pushed, local_set, total_pushed, goes_on, written, literal_datum, line_of_datum, datum_of};
ghost use Rattle.bootsnap_top.specs.SmallRun.{in_range, applied};

use crate::arithmetic::applied;
use crate::machine::calls::{Call, call_of};
use crate::machine::values::{Machine, Value};
use crate::pieces::{text_line, value_line};
use bs_outside::{Bytes, NoMemory};
use iseq_types::{Instr, Line, Literal};
use small_form::Operator;
use std::alloc::Global;

/// How a run of code ends.
#[derive(Clone, Copy)]
pub enum End {
    /// It left.
    Left,
    /// A sum in the line with this number is out of range.
    OutOfRange(u64),
    /// There is something that this machine cannot run.
    NotYet,
}

/// What an instruction does.
#[derive(Drop)]
pub enum Step {
    /// It goes on, with what it wrote.
    On(Bytes),
    Ends(End),
}

fn on(alloc: Global) -> Step
    ensures { result ≡ Step.On [] }
{
    Step::On(Bytes::from_vec(Vec::new(alloc)))
}

/// Does what the line's instruction says.
pub fn run_instr<'a>(
    alloc: Global,
    machine: &mut Machine<'a>,
    line: &'a Line,
) -> Result<Step, NoMemory>
    ensures { IfOk result (λ step. stepped_of step machine.new ≡ step_of machine.old line.now) }
{
    match &line.instr {
        Instr::Pop => Ok(drop_top(alloc, machine)),
        Instr::Dup => copy_top(alloc, machine),
        Instr::PutNil => put(alloc, machine, Value::Nil),
        Instr::PutSelf => put(alloc, machine, Value::Main),
        Instr::PutObject(object) => put_object(alloc, machine, object),
        Instr::PutString(text) => put(alloc, machine, Value::Text(text.as_slice())),
        Instr::GetLocal(slot, level) => put_local(alloc, machine, *slot, *level),
        Instr::SetLocal(slot, level) => Ok(set_local(alloc, machine, *slot, *level)),
        Instr::Send(name, count, spread, flags, block) => {
            let call = call_of(name, *count, spread, *flags, *block);
            send(alloc, machine, line.line, call)
        }
        Instr::Leave => Ok(leave(machine)),
        _ => Ok(Step::Ends(End::NotYet)),
    }
}

/// Puts the value on top.
fn put<'a>(alloc: Global, machine: &mut Machine<'a>, value: Value<'a>) -> Result<Step, NoMemory>
    ensures { IfOk result (λ step. stepped_of step machine.new ≡ goes_on (datum_of value.entry ∷ machine.old.stack) machine.old.locals) }
{
    machine.push(value)?;
    Ok(on(alloc))
}

fn put_object(alloc: Global, machine: &mut Machine<'_>, object: &Literal) -> Result<Step, NoMemory>
    ensures { IfOk result (λ step. stepped_of step machine.new ≡ pushed (literal_datum object.now) machine.old.stack machine.old.locals) }
{
    match object {
        Literal::Int(number) => put(alloc, machine, Value::Integer(*number)),
        _ => Ok(Step::Ends(End::NotYet)),
    }
}

fn put_local(
    alloc: Global,
    machine: &mut Machine<'_>,
    slot: u64,
    level: u64,
) -> Result<Step, NoMemory>
    ensures { IfOk result (λ step. stepped_of step machine.new ≡ local_pushed slot level machine.old.stack machine.old.locals) }
{
    if level != 0 {
        return Ok(Step::Ends(End::NotYet));
    }
    match machine.local(slot as usize) {
        Some(value) => put(alloc, machine, value),
        None => Ok(Step::Ends(End::NotYet)),
    }
}

fn set_local(alloc: Global, machine: &mut Machine<'_>, slot: u64, level: u64) -> Step
    ensures { stepped_of result machine.new ≡ local_set slot level machine.old.stack machine.old.locals }
{
    let slot = slot as usize;
    if level != 0 || slot >= machine.local_count() {
        return Step::Ends(End::NotYet);
    }
    match machine.pop() {
        Some(value) => {
            machine.set_local(slot, value);
            on(alloc)
        }
        None => Step::Ends(End::NotYet),
    }
}

fn drop_top(alloc: Global, machine: &mut Machine<'_>) -> Step
    ensures { stepped_of result machine.new ≡ with_top machine.old.stack (λ top rest. goes_on rest machine.old.locals) }
{
    match machine.pop() {
        Some(_) => on(alloc),
        None => Step::Ends(End::NotYet),
    }
}

fn copy_top(alloc: Global, machine: &mut Machine<'_>) -> Result<Step, NoMemory>
    ensures { IfOk result (λ step. stepped_of step machine.new ≡ with_top machine.old.stack (λ top rest. goes_on (top ∷ top ∷ rest) machine.old.locals)) }
{
    match machine.pop() {
        Some(value) => {
            machine.push(value)?;
            put(alloc, machine, value)
        }
        None => Ok(Step::Ends(End::NotYet)),
    }
}

fn leave(machine: &mut Machine<'_>) -> Step
    ensures { stepped_of result machine.new ≡ with_top machine.old.stack (λ top rest. Ends End.Left) }
{
    match machine.pop() {
        Some(_) => Step::Ends(End::Left),
        None => Step::Ends(End::NotYet),
    }
}

/// Makes the call in the line with this number.
fn send(alloc: Global, machine: &mut Machine<'_>, number: u64, call: Call) -> Result<Step, NoMemory>
    ensures { IfOk result (λ step. stepped_of step machine.new ≡ called number call machine.old.stack machine.old.locals) }
{
    match call {
        Call::Apply(operator) => apply(alloc, machine, number, operator),
        Call::Puts => puts(alloc, machine),
        Call::Other => Ok(Step::Ends(End::NotYet)),
    }
}

fn apply(
    alloc: Global,
    machine: &mut Machine<'_>,
    number: u64,
    operator: Operator,
) -> Result<Step, NoMemory>
    ensures { IfOk result (λ step. stepped_of step machine.new ≡ called number (Call.Apply operator) machine.old.stack machine.old.locals) }
{
    let Some(value) = machine.pop_integer() else {
        return Ok(Step::Ends(End::NotYet));
    };
    let Some(total) = machine.pop_integer() else {
        return Ok(Step::Ends(End::NotYet));
    };
    match applied(operator, total, value) {
        Some(sum) => put(alloc, machine, Value::Integer(sum)),
        None => Ok(Step::Ends(End::OutOfRange(number))),
    }
}

fn puts(alloc: Global, machine: &mut Machine<'_>) -> Result<Step, NoMemory>
    ensures { IfOk result (λ step. stepped_of step machine.new ≡ called 0 Call.Puts machine.old.stack machine.old.locals) }
{
    let Some(value) = machine.pop() else {
        return Ok(Step::Ends(End::NotYet));
    };
    if !machine.pop_main() {
        return Ok(Step::Ends(End::NotYet));
    }
    match line_of(alloc, value)? {
        Some(piece) => {
            machine.push(Value::Nil)?;
            Ok(Step::On(piece))
        }
        None => Ok(Step::Ends(End::NotYet)),
    }
}

/// The line that `puts` writes of the value.
fn line_of(alloc: Global, value: Value<'_>) -> Result<Option<Bytes>, NoMemory>
    ensures { IfOk result (λ line. line ≡ line_of_datum (datum_of value.entry)) }
{
    match value {
        Value::Integer(number) => Ok(Some(value_line(alloc, number)?)),
        Value::Text(text) => Ok(Some(text_line(alloc, text)?)),
        Value::Nil | Value::Main => Ok(None),
    }
}

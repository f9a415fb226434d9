//! Code of small files.
ghost use Rattle.std.specs.Prelude.{◌≡◌, ◌++◌, ◌∷◌, ◌+◌, [], List, IfOk, OnOk, map, codes};
ghost use Rattle.cache_meaning.specs.SmallUnit.{operand_code, operator_name, term_code, sum_code, statement_code, at_line, statements_code, numbered};
ghost use Rattle.small_form.specs.declared.tree.Line.{Line as SourceLine};
ghost use Rattle.compile_cache.specs.SmallSlots.{code_from, is_empty};

use super::locals::Locals;
use bs_outside::{Items, NoMemory, Text};
use iseq_types::{Instr, Line as CodeLine, Literal};
use small_form::{Line, Operand, Operator, Sum, Term};
use std::alloc::Global;

/// The code of the file of these lines.
pub fn file_code(
    alloc: Global,
    locals: &Locals,
    lines: &[Line],
) -> Result<Items<CodeLine>, NoMemory>
    ensures { IfOk result (λ code. code ≡ statements_code locals.now (numbered 1 lines.now) ++ at_line 1 Instr.Leave ∷ []) }
{
    let mut code = Items::new(alloc);
    let mut follows = false;
    for (index, line) in lines.iter().enumerate() {
        follows = put_line(alloc, locals, follows, index as u64 + 1, line, &mut code)?;
    }
    if !follows {
        put(&mut code, 1, Instr::PutNil)?;
    }
    put(&mut code, 1, Instr::Leave)?;
    Ok(code)
}

/// Puts an instruction of a line.
fn put(code: &mut Items<CodeLine>, number: u64, instr: Instr) -> Result<(), NoMemory>
    ensures { OnOk result (code.new ≡ code.old ++ at_line number instr ∷ []) }
{
    code.push(CodeLine {
        line: number,
        instr,
    })
}

/// Puts the line's statement, behind another where one stands before it, and answers whether one stands there now.
fn put_line(
    alloc: Global,
    locals: &Locals,
    follows: bool,
    number: u64,
    line: &Line,
    code: &mut Items<CodeLine>,
) -> Result<bool, NoMemory>
    ensures { IfOk result (λ now. (lines : List SourceLine) → code.old ++ code_from locals.now follows (numbered number (line.now ∷ lines)) ≡ code.new ++ code_from locals.now now (numbered (number + 1) lines)) }
{
    if is_empty(line) {
        return Ok(follows);
    }
    if follows {
        put(code, 1, Instr::Pop)?;
    }
    put_statement(alloc, locals, number, line, code)?;
    Ok(true)
}

fn is_empty(line: &Line) -> bool
    ensures { result ≡ is_empty line.now }
{
    match line {
        Line::Empty => true,
        _ => false,
    }
}

/// Puts the line's statement.
fn put_statement(
    alloc: Global,
    locals: &Locals,
    number: u64,
    line: &Line,
    code: &mut Items<CodeLine>,
) -> Result<(), NoMemory>
    ensures { OnOk result (code.new ≡ code.old ++ map (at_line number) (statement_code locals.now line.now)) }
{
    match line {
        Line::Empty => Ok(()),
        Line::Assign(name, sum) => {
            put_sum(alloc, locals, number, sum, code)?;
            put(code, number, Instr::Dup)?;
            put(code, number, Instr::SetLocal(locals.slot(name), 0))
        }
        Line::PutsSum(sum) => {
            put(code, number, Instr::PutSelf)?;
            put_sum(alloc, locals, number, sum, code)?;
            put_send(alloc, number, b"puts", 1, code)
        }
        Line::PutsText(text) => {
            put(code, number, Instr::PutSelf)?;
            put(code, number, Instr::PutString(text.copy(alloc)?))?;
            put_send(alloc, number, b"puts", 1, code)
        }
    }
}

/// Puts a call of this name with one argument.
fn put_send(
    alloc: Global,
    number: u64,
    name: &[u8],
    flags: u64,
    code: &mut Items<CodeLine>,
) -> Result<(), NoMemory>
    ensures { OnOk result (code.new ≡ code.old ++ at_line number (Instr.Send name.now 1 [] flags 0) ∷ []) }
{
    let name = Text::new(alloc, name)?;
    put(
        code,
        number,
        Instr::Send(name, 1, Items::new(alloc), flags, 0),
    )
}

/// Puts what computes the sum.
fn put_sum(
    alloc: Global,
    locals: &Locals,
    number: u64,
    sum: &Sum,
    code: &mut Items<CodeLine>,
) -> Result<(), NoMemory>
    ensures { OnOk result (code.new ≡ code.old ++ map (at_line number) (sum_code locals.now sum.now)) }
{
    put(code, number, operand_code(locals, &sum.first))?;
    for term in sum.rest.as_slice() {
        put_term(alloc, locals, number, term, code)?;
    }
    Ok(())
}

/// Puts the operand, and the call of the operator.
fn put_term(
    alloc: Global,
    locals: &Locals,
    number: u64,
    term: &Term,
    code: &mut Items<CodeLine>,
) -> Result<(), NoMemory>
    ensures { OnOk result (code.new ≡ code.old ++ map (at_line number) (term_code locals.now term.now)) }
{
    put(code, number, operand_code(locals, &term.operand))?;
    put_send(alloc, number, operator_name(term.operator), 0, code)
}

/// What puts the operand's value on the stack.
fn operand_code(locals: &Locals, operand: &Operand) -> Instr
    ensures { result ≡ operand_code locals.now operand.now }
{
    match operand {
        Operand::Number(number) => Instr::PutObject(Literal::Int(*number)),
        Operand::Name(name) => Instr::GetLocal(locals.slot(name), 0),
    }
}

fn operator_name(operator: Operator) -> &'static [u8]
    ensures { result.now ≡ operator_name operator }
{
    match operator {
        Operator::Plus => b"+",
        Operator::Minus => b"-",
    }
}

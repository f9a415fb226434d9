//! Literals and variables.
ghost use Rattle.std.specs.Prelude.{◌≡◌, OnOk, IfOk, pos};
ghost use Rattle.ruby_tree.specs.SourcePositions.{position_of};
ghost use Rattle.ruby_tree.specs.Read.{literal_form, variable_form};
ghost use Rattle.code_meaning.specs.Code.{op, done};
ghost use Rattle.compile_table.specs.Shapes.{own, form_shape};
ghost use Rattle.code_emitter.specs.Children.{form_direct};
ghost use Rattle.code_emitter.specs.Emitting.{where_of, texts_of, Writes, Finds};

use bs_outside::{NoMemory, Text, parent};
use code_emitter::{Emitter, Output};
use iseq_types::{Instr, Literal as Constant};
use ruby_tree::{Literal, SourcePosition, Variable};
use std::alloc::AllocError;

/// Writes the code of a literal.
pub fn literal<'a>(
    emitter: &Emitter<'_, 'a>,
    at: SourcePosition,
    literal: &Literal,
    out: &mut Output<'a>,
) -> Result<(), NoMemory>
    ensures code { OnOk result (Writes emitter.now.depth (form_shape (where_of emitter.now) (literal_form (texts_of emitter.now) literal.now) (position_of at)) out.old out.new) }
    ensures children { OnOk result (Finds (texts_of emitter.now) (form_direct emitter.now.in_loop (literal_form (texts_of emitter.now) literal.now)) out.old out.new) }
{
    let instr = constant(emitter, at, literal)?;
    out.code.write(emitter.own(at), instr)
}

/// The instruction that pushes a literal.
fn constant(
    emitter: &Emitter<'_, '_>,
    at: SourcePosition,
    literal: &Literal,
) -> Result<Instr, NoMemory>
    ensures { IfOk result (λ instr. form_shape (where_of emitter.now) (literal_form (texts_of emitter.now) literal.now) (position_of at) ≡ op (own (where_of emitter.now) (position_of at)) instr done) }
{
    Ok(match literal {
        Literal::Nil => Instr::PutNil,
        Literal::True => Instr::PutObject(Constant::True),
        Literal::False => Instr::PutObject(Constant::False),
        Literal::Integer(value) => Instr::PutObject(Constant::Int(*value)),
        Literal::Symbol(name) => Instr::PutObject(Constant::Sym(emitter.text(*name)?)),
        Literal::String(bytes) => Instr::PutString(Text::new(emitter.alloc, bytes.as_slice())?),
        Literal::SelfValue => Instr::PutSelf,
        Literal::File => Instr::PutString(emitter.path.copy(emitter.alloc)?),
        Literal::Folder => {
            let folder = parent(emitter.path.as_slice());
            Instr::PutString(Text::new(emitter.alloc, folder)?)
        }
        Literal::Line => Instr::PutObject(Constant::Int(line_number(at.line)?)),
    })
}

/// The line as a value. A line that 63 bits cannot count wants more memory than there is.
fn line_number(line: u64) -> Result<i64, NoMemory>
    ensures { IfOk result (λ value. value ≡ pos line) }
{
    match i64::try_from(line) {
        Ok(value) => Ok(value),
        Err(_) => Err(AllocError),
    }
}

/// Writes the code of a variable that is read.
pub fn variable<'a>(
    emitter: &Emitter<'_, 'a>,
    at: SourcePosition,
    variable: &Variable,
    out: &mut Output<'a>,
) -> Result<(), NoMemory>
    ensures code { OnOk result (Writes emitter.now.depth (form_shape (where_of emitter.now) (variable_form (texts_of emitter.now) variable.now) (position_of at)) out.old out.new) }
    ensures children { OnOk result (Finds (texts_of emitter.now) (form_direct emitter.now.in_loop (variable_form (texts_of emitter.now) variable.now)) out.old out.new) }
{
    let instr = read(emitter, variable)?;
    out.code.write(emitter.own(at), instr)
}

/// The instruction that reads a variable.
fn read(emitter: &Emitter<'_, '_>, variable: &Variable) -> Result<Instr, NoMemory>
    ensures { (at : _) → IfOk result (λ instr. form_shape (where_of emitter.now) (variable_form (texts_of emitter.now) variable.now) at ≡ op (own (where_of emitter.now) at) instr done) }
{
    Ok(match variable {
        Variable::Local(name) => emitter.get_local(*name),
        Variable::Instance(name) => Instr::GetInstanceVariable(emitter.text(*name)?),
        Variable::Global(name) => Instr::GetGlobal(emitter.text(*name)?),
    })
}

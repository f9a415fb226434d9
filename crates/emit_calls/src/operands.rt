//! What stands behind the receiver of a call.
ghost use Rattle.std.specs.Prelude.{◌≡◌, suc, ◌++◌, IfOk, OnOk};
ghost use Rattle.ruby_tree.specs.Read.{text_of_name};
ghost use Rattle.ruby_tree.specs.Views.{read_all, read_other};
ghost use Rattle.iseq_types.specs.declared.instructions.Instr.TheVariants.{Send, InvokeSuper};
ghost use Rattle.compile_table.specs.Shapes.{count, value_flag};
ghost use Rattle.code_emitter.specs.Children.{trees_direct, other_direct, block_direct};
ghost use Rattle.code_emitter.specs.Emitting.{where_of, texts_of, written, children_of, Writes, Finds};
ghost use Rattle.emit_calls.specs.Calls.{instr_of, after_receiver};

use crate::called::{Called, with_literal};
use bs_outside::NoMemory;
use code_emitter::{Emitter, Nodes, Output, args, block_value, sum};
use ruby_tree::{Name, Node};

/// The arguments, the places of those that are spread, the block value and the literal block.
#[derive(Clone, Copy, Drop)]
pub(crate) struct Operands<'a> {
    pub(crate) args: &'a [Node],
    pub(crate) splats: &'a [u64],
    pub(crate) value: &'a Option<Box<Node>>,
    pub(crate) block: &'a Option<Box<Node>>,
}

/// The call of a method by its name.
#[tactic(auto, using(code_emitter::proofs::Seams::count_all))]
pub(crate) fn method<'a>(
    emitter: &Emitter<'_, 'a>,
    operands: Operands<'a>,
    name: Name,
    flags: u64,
) -> Result<Called, NoMemory>
    ensures { IfOk result (λ called. instr_of called ≡ Send (text_of_name (texts_of emitter.now) name) (count (read_all (texts_of emitter.now) operands.entry.args.now)) operands.entry.splats.now flags) }
{
    let name = emitter.text(name)?;
    let splats = emitter.splats(operands.splats)?;
    Ok(Called::Method(name, operands.args.len() as u64, splats, flags))
}

/// The call of the method above.
#[tactic(auto, using(code_emitter::proofs::Seams::count_all))]
pub(crate) fn above<'a>(
    emitter: &Emitter<'_, 'a>,
    operands: Operands<'a>,
    flags: u64,
) -> Result<Called, NoMemory>
    ensures { IfOk result (λ called. instr_of called ≡ InvokeSuper (count (read_all (texts_of emitter.now) operands.entry.args.now)) operands.entry.splats.now flags) }
{
    let splats = emitter.splats(operands.splats)?;
    Ok(Called::Super(operands.args.len() as u64, splats, flags))
}

/// The flag of a call for its block value.
pub(crate) fn value_flag(value: &Option<Box<Node>>) -> u64
    ensures { (texts : _) → result ≡ value_flag (read_other texts value.now) }
{
    match value {
        None => 0,
        Some(_) => 2,
    }
}

/// Writes the arguments, the block value, and the call with its literal block.
#[tactic(auto, using(crate::proofs::Forms::operands_apart, code_emitter::proofs::Seams::count_all))]
pub(crate) fn after_receiver<'a, N: Nodes<'a>>(
    emitter: &Emitter<'_, 'a>,
    below: &N,
    line: u64,
    called: Called,
    operands: Operands<'a>,
    out: &mut Output<'a>,
) -> Result<(), NoMemory>
    requires { N.IsReady below.now }
    ensures code { OnOk result (Writes emitter.now.depth (after_receiver (where_of emitter.now) line (read_all (texts_of emitter.now) operands.entry.args.now) (read_other (texts_of emitter.now) operands.entry.value.now) (instr_of called) (read_other (texts_of emitter.now) operands.entry.block.now)) out.old out.new) }
    ensures children { OnOk result (Finds (texts_of emitter.now) (block_direct emitter.now.in_loop (read_other (texts_of emitter.now) operands.entry.block.now) ++ (other_direct emitter.now.in_loop (read_other (texts_of emitter.now) operands.entry.value.now) ++ trees_direct emitter.now.in_loop (read_all (texts_of emitter.now) operands.entry.args.now))) out.old out.new) }
{
    with_literal(emitter, line, called, operands.block, out)?;
    let deeper = sum(operands.args.len() as u64, 1)?;
    block_value(emitter, below, deeper, operands.value, out)?;
    args(emitter, below, 1, operands.args, out)?;
    Ok(())
}

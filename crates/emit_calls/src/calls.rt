//! Calls of methods and blocks.
ghost use Rattle.std.specs.Prelude.{◌≡◌, ◌++◌, OnOk};
ghost use Rattle.ruby_tree.specs.SourcePositions.{position_of};
ghost use Rattle.ruby_tree.specs.Tree.{send, safe_send, yield, super, bare_super, bare_raise};
ghost use Rattle.ruby_tree.specs.Read.{tree_of, text_of_name};
ghost use Rattle.ruby_tree.specs.Views.{read_all, read_other, read_call};
ghost use Rattle.iseq_types.specs.declared.instructions.Instr.TheVariants.{Dup, BranchNil};
ghost use Rattle.code_meaning.specs.Code.{ahead, op, size};
ghost use Rattle.compile_table.specs.Shapes.{form_shape, receiver_flag, bare_flag};
ghost use Rattle.code_emitter.specs.Children.{form_direct, trees_direct, other_direct, block_direct};
ghost use Rattle.code_emitter.specs.Emitting.{where_of, texts_of, written, children_of, Writes, Finds};
ghost use Rattle.emit_calls.specs.Calls.{instr_of, after_receiver};

use crate::called::{Called, with_literal};
use crate::operands::{Operands, above, after_receiver, method, value_flag};
use crate::params::get_params;
use bs_outside::{Items, NoMemory, Text};
use code_emitter::{Emitter, Nodes, Output, args, self_flag, sum};
use code_writer::Branch;
use iseq_types::Instr;
use ruby_tree::{Call, Name, Node, SourcePosition};

/// Writes the code of a call.
pub fn call<'a, N: Nodes<'a>>(
    emitter: &Emitter<'_, 'a>,
    below: &N,
    at: SourcePosition,
    call: &'a Call<Node>,
    out: &mut Output<'a>,
) -> Result<(), NoMemory>
    requires { N.IsReady below.now }
    ensures code { OnOk result (Writes emitter.now.depth (form_shape (where_of emitter.now) (read_call (texts_of emitter.now) call.now) (position_of at)) out.old out.new) }
    ensures children { OnOk result (Finds (texts_of emitter.now) (form_direct emitter.now.in_loop (read_call (texts_of emitter.now) call.now)) out.old out.new) }
{
    match call {
        Call::Send(receiver, args, splats, value, name, bare, block) => {
            let operands = Operands {
                args,
                splats,
                value,
                block,
            };
            send(emitter, below, at, receiver, operands, *name, *bare, out)
        }
        Call::SafeSend(receiver, args, splats, value, name, block) => {
            let operands = Operands {
                args,
                splats,
                value,
                block,
            };
            safe_send(emitter, below, at, receiver, operands, *name, out)
        }
        Call::Yield(args, splats) => call_block(emitter, below, at, args, splats, out),
        Call::Super(args, splats, value, block) => {
            let operands = Operands {
                args,
                splats,
                value,
                block,
            };
            call_above(emitter, below, at, operands, out)
        }
        Call::BareSuper(block) => call_above_alike(emitter, at, block, out),
        Call::BareRaise => raise_again(emitter, at, out),
    }
}

/// Writes the code of a call of a method.
fn send<'a, N: Nodes<'a>>(
    emitter: &Emitter<'_, 'a>,
    below: &N,
    at: SourcePosition,
    receiver: &'a Option<Box<Node>>,
    operands: Operands<'a>,
    name: Name,
    bare: bool,
    out: &mut Output<'a>,
) -> Result<(), NoMemory>
    requires { N.IsReady below.now }
    ensures code { OnOk result (Writes emitter.now.depth (form_shape (where_of emitter.now) (send (read_other (texts_of emitter.now) receiver.now) (read_all (texts_of emitter.now) operands.entry.args.now) operands.entry.splats.now (read_other (texts_of emitter.now) operands.entry.value.now) (text_of_name (texts_of emitter.now) name) bare (read_other (texts_of emitter.now) operands.entry.block.now)) (position_of at)) out.old out.new) }
    ensures children { OnOk result (Finds (texts_of emitter.now) (form_direct emitter.now.in_loop (send (read_other (texts_of emitter.now) receiver.now) (read_all (texts_of emitter.now) operands.entry.args.now) operands.entry.splats.now (read_other (texts_of emitter.now) operands.entry.value.now) (text_of_name (texts_of emitter.now) name) bare (read_other (texts_of emitter.now) operands.entry.block.now))) out.old out.new) }
{
    let flags = sum(receiver_flag(receiver), value_flag(operands.value))?;
    let flags = sum(flags, bare_flag(bare))?;
    let called = method(emitter, operands, name, flags)?;
    after_receiver(emitter, below, emitter.own(at), called, operands, out)?;
    match receiver {
        None => out.code.write(emitter.start(at), Instr::PutSelf)?,
        Some(tree) => below.node(emitter, 0, tree, out)?,
    }
    Ok(())
}

/// The flag of a call for its receiver: 1 for `self`.
fn receiver_flag(receiver: &Option<Box<Node>>) -> u64
    ensures { (texts : _) → result ≡ receiver_flag (read_other texts receiver.now) }
{
    match receiver {
        None => 1,
        Some(tree) => self_flag(tree),
    }
}

/// The flag of a call by a bare name.
fn bare_flag(bare: bool) -> u64
    ensures { result ≡ bare_flag bare }
{
    if bare { 4 } else { 0 }
}

/// Writes the code of a call of a method, unless the receiver is nil.
fn safe_send<'a, N: Nodes<'a>>(
    emitter: &Emitter<'_, 'a>,
    below: &N,
    at: SourcePosition,
    receiver: &'a Node,
    operands: Operands<'a>,
    name: Name,
    out: &mut Output<'a>,
) -> Result<(), NoMemory>
    requires { N.IsReady below.now }
    ensures code { OnOk result (Writes emitter.now.depth (form_shape (where_of emitter.now) (safe_send (tree_of (texts_of emitter.now) receiver.now) (read_all (texts_of emitter.now) operands.entry.args.now) operands.entry.splats.now (read_other (texts_of emitter.now) operands.entry.value.now) (text_of_name (texts_of emitter.now) name) (read_other (texts_of emitter.now) operands.entry.block.now)) (position_of at)) out.old out.new) }
    ensures children { OnOk result (Finds (texts_of emitter.now) (form_direct emitter.now.in_loop (safe_send (tree_of (texts_of emitter.now) receiver.now) (read_all (texts_of emitter.now) operands.entry.args.now) operands.entry.splats.now (read_other (texts_of emitter.now) operands.entry.value.now) (text_of_name (texts_of emitter.now) name) (read_other (texts_of emitter.now) operands.entry.block.now))) out.old out.new) }
{
    let flags = sum(self_flag(receiver), value_flag(operands.value))?;
    let called = method(emitter, operands, name, flags)?;
    unless_nil(
        emitter,
        below,
        emitter.start(at),
        emitter.own(at),
        called,
        operands,
        out,
    )?;
    below.node(emitter, 0, receiver, out)?;
    Ok(())
}

/// Writes what stands behind a receiver, which is left as it is where it is nil.
fn unless_nil<'a, N: Nodes<'a>>(
    emitter: &Emitter<'_, 'a>,
    below: &N,
    start: u64,
    line: u64,
    called: Called,
    operands: Operands<'a>,
    out: &mut Output<'a>,
) -> Result<(), NoMemory>
    requires { N.IsReady below.now }
    ensures code { OnOk result (Writes emitter.now.depth (op start Dup (ahead start BranchNil (size (after_receiver (where_of emitter.now) line (read_all (texts_of emitter.now) operands.entry.args.now) (read_other (texts_of emitter.now) operands.entry.value.now) (instr_of called) (read_other (texts_of emitter.now) operands.entry.block.now))) (after_receiver (where_of emitter.now) line (read_all (texts_of emitter.now) operands.entry.args.now) (read_other (texts_of emitter.now) operands.entry.value.now) (instr_of called) (read_other (texts_of emitter.now) operands.entry.block.now)))) out.old out.new) }
    ensures children { OnOk result (Finds (texts_of emitter.now) (block_direct emitter.now.in_loop (read_other (texts_of emitter.now) operands.entry.block.now) ++ (other_direct emitter.now.in_loop (read_other (texts_of emitter.now) operands.entry.value.now) ++ trees_direct emitter.now.in_loop (read_all (texts_of emitter.now) operands.entry.args.now))) out.old out.new) }
{
    let end = out.code.len();
    after_receiver(emitter, below, line, called, operands, out)?;
    out.code.jump_on(start, Branch::Nil, end)?;
    out.code.write(start, Instr::Dup)?;
    Ok(())
}

/// Writes the code of a call of the block that was given.
#[tactic(auto, using(code_emitter::proofs::Seams::args_seam, code_emitter::proofs::Seams::count_all))]
fn call_block<'a, N: Nodes<'a>>(
    emitter: &Emitter<'_, 'a>,
    below: &N,
    at: SourcePosition,
    trees: &'a [Node],
    splats: &[u64],
    out: &mut Output<'a>,
) -> Result<(), NoMemory>
    requires { N.IsReady below.now }
    ensures code { OnOk result (Writes emitter.now.depth (form_shape (where_of emitter.now) (yield (read_all (texts_of emitter.now) trees.now) splats.now) (position_of at)) out.old out.new) }
    ensures children { OnOk result (Finds (texts_of emitter.now) (trees_direct emitter.now.in_loop (read_all (texts_of emitter.now) trees.now)) out.old out.new) }
{
    let splats = emitter.splats(splats)?;
    out.code.write(
        emitter.own(at),
        Instr::InvokeBlock(trees.len() as u64, splats),
    )?;
    args(emitter, below, 0, trees, out)
}

/// Writes the code of a call of the method above.
fn call_above<'a, N: Nodes<'a>>(
    emitter: &Emitter<'_, 'a>,
    below: &N,
    at: SourcePosition,
    operands: Operands<'a>,
    out: &mut Output<'a>,
) -> Result<(), NoMemory>
    requires { N.IsReady below.now }
    ensures code { OnOk result (Writes emitter.now.depth (form_shape (where_of emitter.now) (super (read_all (texts_of emitter.now) operands.entry.args.now) operands.entry.splats.now (read_other (texts_of emitter.now) operands.entry.value.now) (read_other (texts_of emitter.now) operands.entry.block.now)) (position_of at)) out.old out.new) }
    ensures children { OnOk result (Finds (texts_of emitter.now) (block_direct emitter.now.in_loop (read_other (texts_of emitter.now) operands.entry.block.now) ++ (other_direct emitter.now.in_loop (read_other (texts_of emitter.now) operands.entry.value.now) ++ trees_direct emitter.now.in_loop (read_all (texts_of emitter.now) operands.entry.args.now))) out.old out.new) }
{
    let flags = sum(1, value_flag(operands.value))?;
    let called = above(emitter, operands, flags)?;
    let line = emitter.own(at);
    after_receiver(emitter, below, line, called, operands, out)?;
    out.code.write(line, Instr::PutSelf)?;
    Ok(())
}

/// Writes the code of a call of the method above with the parameters of the innermost body.
#[tactic(auto, using(crate::proofs::Forms::gets_seam, crate::proofs::Forms::count_names))]
fn call_above_alike<'a>(
    emitter: &Emitter<'_, 'a>,
    at: SourcePosition,
    block: &'a Option<Box<Node>>,
    out: &mut Output<'a>,
) -> Result<(), NoMemory>
    ensures code { OnOk result (Writes emitter.now.depth (form_shape (where_of emitter.now) (bare_super (read_other (texts_of emitter.now) block.now)) (position_of at)) out.old out.new) }
    ensures children { OnOk result (Finds (texts_of emitter.now) (block_direct emitter.now.in_loop (read_other (texts_of emitter.now) block.now)) out.old out.new) }
{
    let line = emitter.own(at);
    let params = emitter.scopes.params();
    let called = Called::Super(params.len() as u64, Items::new(emitter.alloc), 1);
    with_literal(emitter, line, called, block, out)?;
    get_params(emitter, line, params, out)?;
    out.code.write(line, Instr::PutSelf)?;
    Ok(())
}

/// Writes the code of a `raise` that raises the pending exception again.
fn raise_again<'a>(
    emitter: &Emitter<'_, 'a>,
    at: SourcePosition,
    out: &mut Output<'a>,
) -> Result<(), NoMemory>
    ensures code { OnOk result (Writes emitter.now.depth (form_shape (where_of emitter.now) bare_raise (position_of at)) out.old out.new) }
    ensures children { OnOk result (out.new.children ≡ out.old.children) }
{
    let line = emitter.own(at);
    let name = Text::new(emitter.alloc, b"raise")?;
    let splats = Items::new(emitter.alloc);
    out.code.write(line, Instr::Send(name, 1, splats, 1, 0))?;
    out.code.write(line, Instr::TopN(emitter.depth))?;
    out.code.write(line, Instr::PutSelf)?;
    Ok(())
}

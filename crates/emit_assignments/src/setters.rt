//! Calls that set an attribute or an element.
ghost use Rattle.std.specs.Prelude.{◌≡◌, OnOk};
ghost use Rattle.ruby_tree.specs.Read.{tree_of, text_of_name};
ghost use Rattle.iseq_types.specs.declared.instructions.Instr.TheVariants.{Pop, Jump, SetN, AdjustStack};
ghost use Rattle.code_meaning.specs.Code.{op, ahead, part, done};
ghost use Rattle.compile_table.specs.Shapes.{shape, plain_send, set_by_send, or_set};
ghost use Rattle.code_writer.specs.Writing.{branch_of};
ghost use Rattle.code_emitter.specs.Children.{direct};
ghost use Rattle.code_emitter.specs.Emitting.{where_of, texts_of, written, children_of, Writes, Finds};

use bs_outside::{Items, NoMemory, Text};
use code_emitter::{Emitter, Nodes, Output, sum};
use code_writer::Branch;
use iseq_types::Instr;
use ruby_tree::{Name, Node};

/// A call that sets.
#[derive(Drop)]
pub(crate) struct Setter {
    /// The line of the node.
    pub(crate) line: u64,
    /// The line of the call.
    pub(crate) call: u64,
    /// How deep below the value the value of all stands.
    pub(crate) depth: u64,
    pub(crate) name: Text,
    /// How many arguments it has, the value among them.
    pub(crate) count: u64,
    pub(crate) flags: u64,
}

/// Writes a call without splats, block value and block.
pub(crate) fn plain_send<'a>(
    emitter: &Emitter<'_, 'a>,
    line: u64,
    name: Text,
    count: u64,
    flags: u64,
    out: &mut Output<'a>,
) -> Result<(), NoMemory>
    ensures code { OnOk result (Writes emitter.now.depth (op line (plain_send name count flags) done) out.old out.new) }
    ensures children { OnOk result (out.new.children ≡ out.old.children) }
{
    let splats = Items::new(emitter.alloc);
    out.code
        .write(line, Instr::Send(name, count, splats, flags, 0))
}

/// Writes a set from the value on: the value goes below the receiver as the value of all, and what
/// the call answers is dropped.
pub(crate) fn set_by_send<'a>(
    emitter: &Emitter<'_, 'a>,
    setter: Setter,
    out: &mut Output<'a>,
) -> Result<(), NoMemory>
    ensures code { OnOk result (Writes emitter.now.depth (set_by_send setter.line setter.call setter.depth setter.name setter.count setter.flags done) out.old out.new) }
    ensures children { OnOk result (out.new.children ≡ out.old.children) }
{
    let Setter {
        line,
        call,
        depth,
        name,
        count,
        flags,
    } = setter;
    out.code.write(line, Instr::Pop)?;
    plain_send(emitter, call, name, count, flags, out)?;
    out.code.write(line, Instr::SetN(depth))
}

/// Writes a set by the operator's answer, from the new value's other operand on.
pub(crate) fn operate_and_set<'a>(
    emitter: &Emitter<'_, 'a>,
    setter: Setter,
    line: u64,
    operator: Name,
    out: &mut Output<'a>,
) -> Result<(), NoMemory>
    ensures code { OnOk result (Writes emitter.now.depth (op line (plain_send (text_of_name (texts_of emitter.now) operator) 1 0) (set_by_send setter.line setter.call setter.depth setter.name setter.count setter.flags done)) out.old out.new) }
    ensures children { OnOk result (out.new.children ≡ out.old.children) }
{
    set_by_send(emitter, setter, out)?;
    let operator = emitter.text(operator)?;
    plain_send(emitter, line, operator, 1, 0, out)
}

/// Writes `||=` or `&&=` from the value that was read on: the branch to the end, the new value, and
/// the end of the old one.
pub(crate) fn set_unless<'a, N: Nodes<'a>>(
    emitter: &Emitter<'_, 'a>,
    below: &N,
    setter: Setter,
    branch: Branch,
    value: &'a Node,
    out: &mut Output<'a>,
) -> Result<(), NoMemory>
    requires { N.IsReady below.now }
    ensures code { OnOk result (Writes emitter.now.depth (or_set setter.line setter.call (branch_of branch) setter.depth setter.name setter.count setter.flags (shape (where_of emitter.now) (tree_of (texts_of emitter.now) value.now))) out.old out.new) }
    ensures children { OnOk result (Finds (texts_of emitter.now) (direct emitter.now.in_loop (tree_of (texts_of emitter.now) value.now)) out.old out.new) }
{
    let line = setter.line;
    // The old value is stored by the last two instructions.
    let stored = sum(out.code.len(), 2)?;
    set_new(emitter, below, setter, value, out)?;
    out.code.jump_on(line, branch, stored)?;
    out.code.write(line, Instr::Dup)?;
    Ok(())
}

/// Writes the set of the new value, and behind it, jumped over, what stores the old one.
fn set_new<'a, N: Nodes<'a>>(
    emitter: &Emitter<'_, 'a>,
    below: &N,
    setter: Setter,
    value: &'a Node,
    out: &mut Output<'a>,
) -> Result<(), NoMemory>
    requires { N.IsReady below.now }
    ensures code { OnOk result (Writes emitter.now.depth (op setter.line Pop (part setter.depth (shape (where_of emitter.now) (tree_of (texts_of emitter.now) value.now)) (set_by_send setter.line setter.call setter.depth setter.name setter.count setter.flags (ahead setter.line Jump 2 (op setter.line (SetN setter.depth) (op setter.line (AdjustStack setter.depth) done)))))) out.old out.new) }
    ensures children { OnOk result (Finds (texts_of emitter.now) (direct emitter.now.in_loop (tree_of (texts_of emitter.now) value.now)) out.old out.new) }
{
    let line = setter.line;
    let depth = setter.depth;
    store_old(emitter, line, depth, out)?;
    set_by_send(emitter, setter, out)?;
    below.node(emitter, depth, value, out)?;
    out.code.write(line, Instr::Pop)?;
    Ok(())
}

/// Writes what stores the old value as the value of all, and jumps over it.
fn store_old<'a>(
    emitter: &Emitter<'_, 'a>,
    line: u64,
    depth: u64,
    out: &mut Output<'a>,
) -> Result<(), NoMemory>
    ensures code { OnOk result (Writes emitter.now.depth (ahead line Jump 2 (op line (SetN depth) (op line (AdjustStack depth) done))) out.old out.new) }
    ensures children { OnOk result (out.new.children ≡ out.old.children) }
{
    let end = out.code.len();
    out.code.write(line, Instr::AdjustStack(depth))?;
    out.code.write(line, Instr::SetN(depth))?;
    out.code.jump_on(line, Branch::Always, end)
}

//! Conditions, and what follows where they hold or do not.
ghost use Rattle.std.specs.Prelude.{◌≡◌, suc, ◌+◌, ◌-◌, ◌++◌, length, OnOk, IfOk, codes};
ghost use Rattle.ruby_tree.specs.Read.{tree_of};
ghost use Rattle.ruby_tree.specs.Views.{read_other};
ghost use Rattle.iseq_types.specs.declared.instructions.Instr.TheVariants.{Pop, Dup, BranchIf, BranchUnless, Jump};
ghost use Rattle.code_meaning.specs.Code.{op, ahead, part, done, size};
ghost use Rattle.code_writer.specs.Writing.{branch_of};
ghost use Rattle.compile_table.specs.Shapes.{shape, other_shape, plain_send, self_flag};
ghost use Rattle.code_emitter.specs.Children.{direct, other_direct};
ghost use Rattle.code_emitter.specs.Emitting.{where_of, texts_of, written, children_of, Writes, Finds};

use bs_outside::{Items, NoMemory, Text};
use code_emitter::{Emitter, Nodes, Output, other, self_flag};
use code_writer::Branch;
use iseq_types::Instr;
use ruby_tree::Node;

/// Writes the code of `a && b`.
pub(crate) fn both<'a, N: Nodes<'a>>(
    emitter: &Emitter<'_, 'a>,
    below: &N,
    line: u64,
    first: &'a Node,
    last: &'a Node,
    out: &mut Output<'a>,
) -> Result<(), NoMemory>
    requires { N.IsReady below.now }
    ensures code { OnOk result (Writes emitter.now.depth (part 0 (shape (where_of emitter.now) (tree_of (texts_of emitter.now) first.now)) (op line Dup (ahead line BranchUnless (suc (size (shape (where_of emitter.now) (tree_of (texts_of emitter.now) last.now)))) (op line Pop (part 0 (shape (where_of emitter.now) (tree_of (texts_of emitter.now) last.now)) done))))) out.old out.new) }
    ensures children { OnOk result (Finds (texts_of emitter.now) (direct emitter.now.in_loop (tree_of (texts_of emitter.now) last.now) ++ direct emitter.now.in_loop (tree_of (texts_of emitter.now) first.now)) out.old out.new) }
{
    unless_decided(emitter, below, line, Branch::Unless, last, out)?;
    below.node(emitter, 0, first, out)
}

/// Writes the code of `a || b`.
pub(crate) fn either<'a, N: Nodes<'a>>(
    emitter: &Emitter<'_, 'a>,
    below: &N,
    line: u64,
    first: &'a Node,
    last: &'a Node,
    out: &mut Output<'a>,
) -> Result<(), NoMemory>
    requires { N.IsReady below.now }
    ensures code { OnOk result (Writes emitter.now.depth (part 0 (shape (where_of emitter.now) (tree_of (texts_of emitter.now) first.now)) (op line Dup (ahead line BranchIf (suc (size (shape (where_of emitter.now) (tree_of (texts_of emitter.now) last.now)))) (op line Pop (part 0 (shape (where_of emitter.now) (tree_of (texts_of emitter.now) last.now)) done))))) out.old out.new) }
    ensures children { OnOk result (Finds (texts_of emitter.now) (direct emitter.now.in_loop (tree_of (texts_of emitter.now) last.now) ++ direct emitter.now.in_loop (tree_of (texts_of emitter.now) first.now)) out.old out.new) }
{
    unless_decided(emitter, below, line, Branch::If, last, out)?;
    below.node(emitter, 0, first, out)
}

/// Writes the code that stands behind a value, which is the result where it branches, and else
/// gives way to another value.
fn unless_decided<'a, N: Nodes<'a>>(
    emitter: &Emitter<'_, 'a>,
    below: &N,
    line: u64,
    branch: Branch,
    tree: &'a Node,
    out: &mut Output<'a>,
) -> Result<(), NoMemory>
    requires { N.IsReady below.now }
    ensures code { OnOk result (Writes emitter.now.depth (op line Dup (ahead line (branch_of branch) (suc (size (shape (where_of emitter.now) (tree_of (texts_of emitter.now) tree.now)))) (op line Pop (part 0 (shape (where_of emitter.now) (tree_of (texts_of emitter.now) tree.now)) done)))) out.old out.new) }
    ensures children { OnOk result (Finds (texts_of emitter.now) (direct emitter.now.in_loop (tree_of (texts_of emitter.now) tree.now)) out.old out.new) }
{
    let end = out.code.len();
    below.node(emitter, 0, tree, out)?;
    out.code.write(line, Instr::Pop)?;
    out.code.jump_on(line, branch, end)?;
    out.code.write(line, Instr::Dup)?;
    Ok(())
}

/// Writes the code of `!a`.
pub(crate) fn negated<'a, N: Nodes<'a>>(
    emitter: &Emitter<'_, 'a>,
    below: &N,
    line: u64,
    tree: &'a Node,
    out: &mut Output<'a>,
) -> Result<(), NoMemory>
    requires { N.IsReady below.now }
    ensures code { OnOk result (Writes emitter.now.depth (part 0 (shape (where_of emitter.now) (tree_of (texts_of emitter.now) tree.now)) (op line (plain_send (codes "!") 0 (self_flag (tree_of (texts_of emitter.now) tree.now))) done)) out.old out.new) }
    ensures children { OnOk result (Finds (texts_of emitter.now) (direct emitter.now.in_loop (tree_of (texts_of emitter.now) tree.now)) out.old out.new) }
{
    let name = Text::new(emitter.alloc, b"!")?;
    let splats = Items::new(emitter.alloc);
    out.code
        .write(line, Instr::Send(name, 0, splats, self_flag(tree), 0))?;
    below.node(emitter, 0, tree, out)
}

/// Writes the code of a condition, of what follows where it holds, and of what follows where it
/// does not.
pub(crate) fn if_else<'a, N: Nodes<'a>>(
    emitter: &Emitter<'_, 'a>,
    below: &N,
    line: u64,
    condition: &'a Node,
    tree: &'a Node,
    last: &'a Option<Box<Node>>,
    out: &mut Output<'a>,
) -> Result<(), NoMemory>
    requires { N.IsReady below.now }
    ensures code { OnOk result (Writes emitter.now.depth (part 0 (shape (where_of emitter.now) (tree_of (texts_of emitter.now) condition.now)) (ahead line BranchUnless (size (shape (where_of emitter.now) (tree_of (texts_of emitter.now) tree.now)) + 1) (part 0 (shape (where_of emitter.now) (tree_of (texts_of emitter.now) tree.now)) (ahead line Jump (size (other_shape (where_of emitter.now) (read_other (texts_of emitter.now) last.now))) (part 0 (other_shape (where_of emitter.now) (read_other (texts_of emitter.now) last.now)) done))))) out.old out.new) }
    ensures children { OnOk result (Finds (texts_of emitter.now) (other_direct emitter.now.in_loop (read_other (texts_of emitter.now) last.now) ++ (direct emitter.now.in_loop (tree_of (texts_of emitter.now) tree.now) ++ direct emitter.now.in_loop (tree_of (texts_of emitter.now) condition.now))) out.old out.new) }
{
    let end = out.code.len();
    other(emitter, below, 0, last, out)?;
    let start = out.code.len();
    one_branch(emitter, below, line, tree, end, out)?;
    out.code.jump_on(line, Branch::Unless, start)?;
    below.node(emitter, 0, condition, out)?;
    Ok(())
}

/// Writes the code of one of several branches, which jumps to the end of all.
pub(crate) fn one_branch<'a, N: Nodes<'a>>(
    emitter: &Emitter<'_, 'a>,
    below: &N,
    line: u64,
    tree: &'a Node,
    end: u64,
    out: &mut Output<'a>,
) -> Result<(), NoMemory>
    requires { N.IsReady below.now }
    ensures code { OnOk result (Writes emitter.now.depth (part 0 (shape (where_of emitter.now) (tree_of (texts_of emitter.now) tree.now)) (ahead line Jump (length (written out.old).steps - end) done)) out.old out.new) }
    ensures children { OnOk result (Finds (texts_of emitter.now) (direct emitter.now.in_loop (tree_of (texts_of emitter.now) tree.now)) out.old out.new) }
{
    out.code.jump_on(line, Branch::Always, end)?;
    below.node(emitter, 0, tree, out)
}

//! Loops.
ghost use Rattle.std.specs.Prelude.{◌≡◌, ◌+◌, ◌-◌, ◌++◌, true, length, OnOk, IfOk};
ghost use Rattle.ruby_tree.specs.SourcePositions.{position_of};
ghost use Rattle.ruby_tree.specs.Read.{tree_of};
ghost use Rattle.ruby_tree.specs.Tree.{while_loop};
ghost use Rattle.iseq_types.specs.declared.instructions.Instr.TheVariants.{Pop, PutNil};
ghost use Rattle.iseq_types.specs.declared.sequences.CatchKind.TheVariants as catches;
ghost use Rattle.code_meaning.specs.Code.{op, behind, part, held, done, size};
ghost use Rattle.code_writer.specs.Writing.{branch_of};
ghost use Rattle.compile_table.specs.Shapes.{form_shape, shape, looped, branch_by, turns};
ghost use Rattle.code_emitter.specs.Children.{direct};
ghost use Rattle.code_emitter.specs.Emitting.{where_of, texts_of, written, children_of, Writes, Finds};

use bs_outside::NoMemory;
use code_emitter::{Emitter, Nodes, Output};
use code_writer::Branch;
use iseq_types::{CatchKind, Instr};
use ruby_tree::{Node, SourcePosition};

/// Writes the code of a loop. Where its body does not come first, it begins with a jump to its
/// condition.
pub(crate) fn while_loop<'a, N: Nodes<'a>>(
    emitter: &Emitter<'_, 'a>,
    below: &N,
    at: SourcePosition,
    body: &'a Node,
    condition: &'a Node,
    until: bool,
    body_first: bool,
    out: &mut Output<'a>,
) -> Result<(), NoMemory>
    requires { N.IsReady below.now }
    ensures code { OnOk result (Writes emitter.now.depth (form_shape (where_of emitter.now) (while_loop (tree_of (texts_of emitter.now) body.now) (tree_of (texts_of emitter.now) condition.now) until body_first) (position_of at)) out.old out.new) }
    ensures children { OnOk result (Finds (texts_of emitter.now) (direct emitter.now.in_loop (tree_of (texts_of emitter.now) condition.now) ++ direct true (tree_of (texts_of emitter.now) body.now)) out.old out.new) }
{
    let line = emitter.own(at);
    let start = turns(emitter, below, line, body, condition, until, out)?;
    if body_first {
        return Ok(());
    }
    out.code.jump_on(line, Branch::Always, start)?;
    Ok(())
}

/// Writes the code of a loop from its body on, and answers where its condition begins: how many
/// instructions stand behind that.
fn turns<'a, N: Nodes<'a>>(
    emitter: &Emitter<'_, 'a>,
    below: &N,
    line: u64,
    body: &'a Node,
    condition: &'a Node,
    until: bool,
    out: &mut Output<'a>,
) -> Result<u64, NoMemory>
    requires { N.IsReady below.now }
    ensures code { OnOk result (Writes emitter.now.depth (turns line until (shape (looped (where_of emitter.now)) (tree_of (texts_of emitter.now) body.now)) (shape (where_of emitter.now) (tree_of (texts_of emitter.now) condition.now))) out.old out.new) }
    ensures children { OnOk result (Finds (texts_of emitter.now) (direct emitter.now.in_loop (tree_of (texts_of emitter.now) condition.now) ++ direct true (tree_of (texts_of emitter.now) body.now)) out.old out.new) }
    ensures start { IfOk result (λ start. start ≡ size (shape (where_of emitter.now) (tree_of (texts_of emitter.now) condition.now)) + 2 + length (written out.old).steps) }
{
    let end = out.code.len();
    let again = test(emitter, below, line, condition, until, out)?;
    let start = out.code.len();
    out.code.write(line, Instr::Pop)?;
    turn(emitter, below, body, end, out)?;
    out.code.lead_back(again);
    Ok(start)
}

/// Writes the code of a loop from its condition on, and answers the number of the jump back.
fn test<'a, N: Nodes<'a>>(
    emitter: &Emitter<'_, 'a>,
    below: &N,
    line: u64,
    condition: &'a Node,
    until: bool,
    out: &mut Output<'a>,
) -> Result<usize, NoMemory>
    requires { N.IsReady below.now }
    ensures code { OnOk result (Writes emitter.now.depth (part 0 (shape (where_of emitter.now) (tree_of (texts_of emitter.now) condition.now)) (behind line (branch_by until) 0 (op line PutNil done))) out.old out.new) }
    ensures children { OnOk result (Finds (texts_of emitter.now) (direct emitter.now.in_loop (tree_of (texts_of emitter.now) condition.now)) out.old out.new) }
    ensures number { IfOk result (λ number. number ≡ 1 + length (written out.old).steps) }
{
    out.code.write(line, Instr::PutNil)?;
    let again = out.code.jump_back(line, branch_by(until))?;
    below.node(emitter, 0, condition, out)?;
    Ok(again)
}

/// When a loop goes on.
fn branch_by(until: bool) -> Branch
    ensures { branch_of result ≡ branch_by until }
{
    if until { Branch::Unless } else { Branch::If }
}

/// Writes the code of a loop's body. `next` goes on behind it, and `break` at the end of the loop.
fn turn<'a, N: Nodes<'a>>(
    emitter: &Emitter<'_, 'a>,
    below: &N,
    body: &'a Node,
    end: u64,
    out: &mut Output<'a>,
) -> Result<(), NoMemory>
    requires { N.IsReady below.now }
    ensures code { OnOk result (Writes emitter.now.depth (held catches.Next 0 0 (held catches.Break (length (written out.old).steps - end) 0 (part 0 (shape (looped (where_of emitter.now)) (tree_of (texts_of emitter.now) body.now)) done) done) done) out.old out.new) }
    ensures children { OnOk result (Finds (texts_of emitter.now) (direct true (tree_of (texts_of emitter.now) body.now)) out.old out.new) }
{
    let here = out.code.len();
    let next = out.code.end_row(CatchKind::Next, here, 0, emitter.depth)?;
    let leave = out.code.end_row(CatchKind::Break, end, 0, emitter.depth)?;
    below.node(&emitter.looped(), 0, body, out)?;
    out.code.begin_row(leave);
    out.code.begin_row(next);
    Ok(())
}

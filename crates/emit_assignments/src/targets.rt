//! Several variables and constants that are set.
ghost use Rattle.std.specs.Prelude.{◌≡◌, map, length, OnOk};
ghost use Rattle.ruby_tree.specs.SourcePositions.{position_of};
ghost use Rattle.ruby_tree.specs.Tree.{assign, assign_all};
ghost use Rattle.ruby_tree.specs.Read.{tree_of, goal_of};
ghost use Rattle.ruby_tree.specs.Views.{read_all};
ghost use Rattle.iseq_types.specs.declared.instructions.Instr.TheVariants.{Dup, ExpandArray};
ghost use Rattle.code_meaning.specs.Code.{op, done};
ghost use Rattle.compile_table.specs.Shapes.{form_shape, sets};
ghost use Rattle.code_emitter.specs.Children.{direct, trees_direct};
ghost use Rattle.code_emitter.specs.Emitting.{where_of, texts_of, written, children_of, Writes, Finds};

use bs_outside::NoMemory;
use code_emitter::{Emitter, Nodes, Output, values};
use iseq_types::Instr;
use ruby_tree::{Node, SourcePosition, Target};

/// Writes the code that sets one target.
pub(crate) fn set_one<'a, N: Nodes<'a>>(
    emitter: &Emitter<'_, 'a>,
    below: &N,
    at: SourcePosition,
    value: &'a Node,
    target: Target,
    out: &mut Output<'a>,
) -> Result<(), NoMemory>
    requires { N.IsReady below.now }
    ensures code { OnOk result (Writes emitter.now.depth (form_shape (where_of emitter.now) (assign (tree_of (texts_of emitter.now) value.now) (goal_of (texts_of emitter.now) target)) (position_of at)) out.old out.new) }
    ensures children { OnOk result (Finds (texts_of emitter.now) (direct emitter.now.in_loop (tree_of (texts_of emitter.now) value.now)) out.old out.new) }
{
    let line = emitter.own(at);
    let set = emitter.set_target(target)?;
    out.code.write(line, set)?;
    out.code.write(line, Instr::Dup)?;
    below.node(emitter, 0, value, out)?;
    Ok(())
}

/// Writes the code that sets several targets.
#[tactic(auto, using(code_emitter::proofs::Seams::values_seam))]
pub(crate) fn set_several<'a, N: Nodes<'a>>(
    emitter: &Emitter<'_, 'a>,
    below: &N,
    at: SourcePosition,
    trees: &'a [Node],
    targets: &[Target],
    out: &mut Output<'a>,
) -> Result<(), NoMemory>
    requires { N.IsReady below.now }
    ensures code { OnOk result (Writes emitter.now.depth (form_shape (where_of emitter.now) (assign_all (read_all (texts_of emitter.now) trees.now) (map (goal_of (texts_of emitter.now)) targets.now)) (position_of at)) out.old out.new) }
    ensures children { OnOk result (Finds (texts_of emitter.now) (trees_direct emitter.now.in_loop (read_all (texts_of emitter.now) trees.now)) out.old out.new) }
{
    let line = emitter.own(at);
    spread(emitter, line, targets, out)?;
    values(emitter, below, line, trees, out)?;
    Ok(())
}

/// Writes the code that spreads a value over targets, and keeps it.
fn spread<'a>(
    emitter: &Emitter<'_, 'a>,
    line: u64,
    targets: &[Target],
    out: &mut Output<'a>,
) -> Result<(), NoMemory>
    ensures code { OnOk result (Writes emitter.now.depth (op line Dup (op line (ExpandArray (length (map (goal_of (texts_of emitter.now)) targets.now))) (sets (where_of emitter.now) line (map (goal_of (texts_of emitter.now)) targets.now) done))) out.old out.new) }
    ensures children { OnOk result (out.new.children ≡ out.old.children) }
{
    set_targets(emitter, line, targets, out)?;
    out.code
        .write(line, Instr::ExpandArray(targets.len() as u64))?;
    out.code.write(line, Instr::Dup)
}

/// Writes the sets of targets, in order.
fn set_targets<'a>(
    emitter: &Emitter<'_, 'a>,
    line: u64,
    targets: &[Target],
    out: &mut Output<'a>,
) -> Result<(), NoMemory>
    ensures code { OnOk result (Writes emitter.now.depth (sets (where_of emitter.now) line (map (goal_of (texts_of emitter.now)) targets.now) done) out.old out.new) }
    ensures children { OnOk result (out.new.children ≡ out.old.children) }
{
    for i in (0..targets.len()).rev() {
        let set = emitter.set_target(targets[i])?;
        out.code.write(line, set)?;
    }
    Ok(())
}

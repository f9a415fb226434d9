//! The parts that nodes of several kinds have.
ghost use Rattle.std.specs.Prelude.{◌≡◌, ◌+◌, [], length, OnOk, IfOk};
ghost use Rattle.ruby_tree.specs.Views.{read_all, read_other};
ghost use Rattle.code_meaning.specs.Code.{done};
ghost use Rattle.compile_table.specs.Shapes.{args_shape, value_shape, other_shape, values_shape};
ghost use Rattle.code_emitter.specs.Children.{trees_direct, other_direct};
ghost use Rattle.code_emitter.specs.Emitting.{where_of, texts_of, written, children_of, gathered, Writes, Finds};

use crate::emitter::Emitter;
use crate::nodes::Nodes;
use crate::output::Output;
use bs_outside::{Items, NoMemory};
use iseq_types::Instr;
use ruby_tree::Node;
use std::alloc::AllocError;

/// The sum of two depths. One that 64 bits cannot count wants more memory than there is.
pub fn sum(a: u64, b: u64) -> Result<u64, NoMemory>
    ensures { IfOk result (λ sum. sum ≡ a + b) }
{
    match a.checked_add(b) {
        Some(sum) => Ok(sum),
        None => Err(AllocError),
    }
}

/// Writes the code of values, of which the first stands so much deeper on the stack.
pub fn args<'a, N: Nodes<'a>>(
    emitter: &Emitter<'_, 'a>,
    below: &N,
    deeper: u64,
    trees: &'a [Node],
    out: &mut Output<'a>,
) -> Result<(), NoMemory>
    requires { N.IsReady below.now }
    ensures code { OnOk result (Writes emitter.now.depth (args_shape (where_of emitter.now) deeper (read_all (texts_of emitter.now) trees.now) done) out.old out.new) }
    ensures children { OnOk result (Finds (texts_of emitter.now) (trees_direct emitter.now.in_loop (read_all (texts_of emitter.now) trees.now)) out.old out.new) }
{
    for i in (0..trees.len()).rev() {
        let depth = sum(deeper, i as u64)?;
        below.node(emitter, depth, &trees[i], out)?;
    }
    Ok(())
}

/// Writes the code of a block value, if there is one, which stands so much deeper on the stack.
pub fn block_value<'a, N: Nodes<'a>>(
    emitter: &Emitter<'_, 'a>,
    below: &N,
    deeper: u64,
    value: &'a Option<Box<Node>>,
    out: &mut Output<'a>,
) -> Result<(), NoMemory>
    requires { N.IsReady below.now }
    ensures code { OnOk result (Writes emitter.now.depth (value_shape (where_of emitter.now) deeper (read_other (texts_of emitter.now) value.now) done) out.old out.new) }
    ensures children { OnOk result (Finds (texts_of emitter.now) (other_direct emitter.now.in_loop (read_other (texts_of emitter.now) value.now)) out.old out.new) }
{
    match value {
        None => Ok(()),
        Some(tree) => below.node(emitter, deeper, tree, out),
    }
}

/// Writes the code of a part that may be missing, which has nil for its value then, and stands so
/// much deeper on the stack.
pub fn other<'a, N: Nodes<'a>>(
    emitter: &Emitter<'_, 'a>,
    below: &N,
    deeper: u64,
    part: &'a Option<Box<Node>>,
    out: &mut Output<'a>,
) -> Result<(), NoMemory>
    requires { N.IsReady below.now }
    ensures code { OnOk result (Writes (emitter.now.depth + deeper) (other_shape (where_of emitter.now) (read_other (texts_of emitter.now) part.now)) out.old out.new) }
    ensures children { OnOk result (Finds (texts_of emitter.now) (other_direct emitter.now.in_loop (read_other (texts_of emitter.now) part.now)) out.old out.new) }
{
    match part {
        None => out.code.write(emitter.first, Instr::PutNil),
        Some(tree) => below.node(emitter, deeper, tree, out),
    }
}

/// Writes the code of nil for no values, of one value, or of an array of several.
#[tactic(auto, using(crate::proofs::Seams::values_apart, crate::proofs::Seams::count_all))]
pub fn values<'a, N: Nodes<'a>>(
    emitter: &Emitter<'_, 'a>,
    below: &N,
    line: u64,
    trees: &'a [Node],
    out: &mut Output<'a>,
) -> Result<(), NoMemory>
    requires { N.IsReady below.now }
    ensures code { OnOk result (Writes emitter.now.depth (values_shape (where_of emitter.now) (read_all (texts_of emitter.now) trees.now) line done) out.old out.new) }
    ensures children { OnOk result (Finds (texts_of emitter.now) (trees_direct emitter.now.in_loop (read_all (texts_of emitter.now) trees.now)) out.old out.new) }
{
    gather(emitter, line, trees.len(), out)?;
    args(emitter, below, 0, trees, out)
}

/// Makes one value of so many.
fn gather<'a>(
    emitter: &Emitter<'_, 'a>,
    line: u64,
    count: usize,
    out: &mut Output<'a>,
) -> Result<(), NoMemory>
    ensures code { (depth : _) → OnOk result (Writes depth (gathered line count) out.old out.new) }
    ensures children { OnOk result (out.new.children ≡ out.old.children) }
{
    match count {
        0 => out.code.write(line, Instr::PutNil),
        1 => Ok(()),
        count => out.code.write(
            line,
            Instr::NewArray(count as u64, Items::new(emitter.alloc)),
        ),
    }
}

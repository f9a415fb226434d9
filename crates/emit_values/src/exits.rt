//! What leaves a method, a loop, a block or a clause.
ghost use Rattle.std.specs.Prelude.{◌≡◌, OnOk};
ghost use Rattle.ruby_tree.specs.SourcePositions.{position_of};
ghost use Rattle.ruby_tree.specs.Views.{read_all, read_exit};
ghost use Rattle.iseq_types.specs.declared.instructions.Instr.TheVariants.{Throw};
ghost use Rattle.code_meaning.specs.Code.{op, done};
ghost use Rattle.compile_table.specs.Shapes.{form_shape, values_shape, throw_by};
ghost use Rattle.code_emitter.specs.Children.{form_direct, trees_direct};
ghost use Rattle.code_emitter.specs.Emitting.{where_of, texts_of, Writes, Finds};

use bs_outside::NoMemory;
use code_emitter::{Emitter, Nodes, Output, values};
use iseq_types::Instr;
use ruby_tree::{Exit, Node, SourcePosition};

/// Writes the code of what leaves a method, a loop, a block or a clause.
pub fn exit<'a, N: Nodes<'a>>(
    emitter: &Emitter<'_, 'a>,
    below: &N,
    at: SourcePosition,
    exit: &'a Exit<Node>,
    out: &mut Output<'a>,
) -> Result<(), NoMemory>
    requires { N.IsReady below.now }
    ensures code { OnOk result (Writes emitter.now.depth (form_shape (where_of emitter.now) (read_exit (texts_of emitter.now) exit.now) (position_of at)) out.old out.new) }
    ensures children { OnOk result (Finds (texts_of emitter.now) (form_direct emitter.now.in_loop (read_exit (texts_of emitter.now) exit.now)) out.old out.new) }
{
    let line = emitter.own(at);
    match exit {
        Exit::Return(trees) => leave(emitter, below, line, 1, trees, out),
        Exit::Break(trees) => {
            let code = throw_by(emitter.in_loop, 2, 4);
            leave(emitter, below, line, code, trees, out)
        }
        Exit::Next(trees) => {
            let code = throw_by(emitter.in_loop, 3, 5);
            leave(emitter, below, line, code, trees, out)
        }
        Exit::Retry => {
            out.code.write(line, Instr::Throw(7))?;
            out.code.write(line, Instr::PutNil)
        }
    }
}

/// The first number in a loop, and the second in a block.
fn throw_by(in_loop: bool, looped: u64, blocked: u64) -> u64
    ensures { result ≡ throw_by in_loop looped blocked }
{
    if in_loop { looped } else { blocked }
}

/// Writes the code that leaves with values.
#[tactic(auto, using(code_emitter::proofs::Seams::values_seam))]
fn leave<'a, N: Nodes<'a>>(
    emitter: &Emitter<'_, 'a>,
    below: &N,
    line: u64,
    code: u64,
    trees: &'a [Node],
    out: &mut Output<'a>,
) -> Result<(), NoMemory>
    requires { N.IsReady below.now }
    ensures code { OnOk result (Writes emitter.now.depth (values_shape (where_of emitter.now) (read_all (texts_of emitter.now) trees.now) line (op line (Throw code) done)) out.old out.new) }
    ensures children { OnOk result (Finds (texts_of emitter.now) (trees_direct emitter.now.in_loop (read_all (texts_of emitter.now) trees.now)) out.old out.new) }
{
    out.code.write(line, Instr::Throw(code))?;
    values(emitter, below, line, trees, out)
}

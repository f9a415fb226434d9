//! The instruction of a call, and the row over it where it has a literal block.
ghost use Rattle.std.specs.Prelude.{◌≡◌, ℕ, suc, [], ◌∷◌, ◌++◌, OnOk};
ghost use Rattle.ruby_tree.specs.Tree.{with};
ghost use Rattle.ruby_tree.specs.Read.{tree_of};
ghost use Rattle.ruby_tree.specs.Views.{read_other};
ghost use Rattle.iseq_types.specs.declared.sequences.SeqKind.TheVariants as kinds;
ghost use Rattle.compile_table.specs.Shapes.{with_literal};
ghost use Rattle.code_emitter.specs.Children.{child, block_direct};
ghost use Rattle.code_emitter.specs.Emitting.{where_of, texts_of, written, children_of, Writes, Finds};
ghost use Rattle.emit_calls.specs.Calls.{instr_of};

use bs_outside::{Items, NoMemory, Text};
use code_emitter::{Child, Emitter, Output, sum};
use iseq_types::{CatchKind, Instr, SeqKind};
use ruby_tree::Node;

/// A call, but for its literal block.
#[derive(Drop)]
pub(crate) enum Called {
    /// The name, the number of arguments, those that are spread, and the flags.
    Method(Text, u64, Items<u64>, u64),
    /// A call of the method above, in the same order.
    Super(u64, Items<u64>, u64),
}

impl Called {
    /// The instruction that calls with this sequence for the block, or 0 for none.
    fn instr(self, block: u64) -> Instr
        ensures { result ≡ instr_of self block }
    {
        match self {
            Called::Method(name, count, splats, flags) => {
                Instr::Send(name, count, splats, flags, block)
            }
            Called::Super(count, splats, flags) => {
                Instr::InvokeSuper(count, splats, flags, block)
            }
        }
    }
}

/// Writes a call that may have a literal block, over which its own row lies.
pub(crate) fn with_literal<'a>(
    emitter: &Emitter<'_, 'a>,
    line: u64,
    called: Called,
    block: &'a Option<Box<Node>>,
    out: &mut Output<'a>,
) -> Result<(), NoMemory>
    ensures code { OnOk result (Writes emitter.now.depth (with_literal (where_of emitter.now) line (instr_of called) (read_other (texts_of emitter.now) block.now)) out.old out.new) }
    ensures children { OnOk result (Finds (texts_of emitter.now) (block_direct emitter.now.in_loop (read_other (texts_of emitter.now) block.now)) out.old out.new) }
{
    match block {
        None => out.code.write(line, called.instr(0)),
        Some(tree) => with_block(emitter, line, called, tree, out),
    }
}

/// Writes a call with a literal block, and notes the block.
fn with_block<'a>(
    emitter: &Emitter<'_, 'a>,
    line: u64,
    called: Called,
    tree: &'a Node,
    out: &mut Output<'a>,
) -> Result<(), NoMemory>
    ensures code { OnOk result (Writes emitter.now.depth (with_literal (where_of emitter.now) line (instr_of called) (with (tree_of (texts_of emitter.now) tree.now))) out.old out.new) }
    ensures children { OnOk result (Finds (texts_of emitter.now) (child kinds.Block [] emitter.now.in_loop (tree_of (texts_of emitter.now) tree.now) ∷ []) out.old out.new) }
{
    let end = out.code.len();
    let row = out.code.end_row(CatchKind::Break, end, 0, emitter.depth)?;
    out.note(Child {
        kind: SeqKind::Block,
        name: None,
        in_loop: emitter.in_loop,
        tree,
    })?;
    let block = sum(emitter.number_of(tree), 1)?;
    out.code.write(line, called.instr(block))?;
    out.code.begin_row(row);
    Ok(())
}

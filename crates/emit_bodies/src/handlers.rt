//! Statements with rescue clauses or an ensure part, and the sequences of these.
ghost use Rattle.std.specs.Prelude.{◌≡◌, ◌-◌, [], ◌∷◌, ◌++◌, length, OnOk, IfOk};
ghost use Rattle.ruby_tree.specs.SourcePositions.{position_of};
ghost use Rattle.ruby_tree.specs.Read.{tree_of};
ghost use Rattle.ruby_tree.specs.Views.{read_other, read_handler};
ghost use Rattle.iseq_types.specs.declared.instructions.Instr.TheVariants.{Pop, Throw};
ghost use Rattle.iseq_types.specs.declared.sequences.CatchKind.TheVariants as catches;
ghost use Rattle.iseq_types.specs.declared.sequences.SeqKind.TheVariants as kinds;
ghost use Rattle.code_meaning.specs.Code.{op, done, part, held, size};
ghost use Rattle.code_writer.specs.Writing.{row_opened};
ghost use Rattle.compile_table.specs.Shapes.{form_shape, shape, last_shape, number_of};
ghost use Rattle.code_emitter.specs.Children.{form_direct, other_direct, direct, child};
ghost use Rattle.code_emitter.specs.Emitting.{where_of, texts_of, written, Writes, Finds};

use crate::clauses::rescue_sequence;
use bs_outside::NoMemory;
use code_emitter::{Child, Emitter, Nodes, Output};
use iseq_types::{CatchKind, Instr, SeqKind};
use ruby_tree::{Handler, Node, SourcePosition};

/// Writes the code of statements with clauses, or of a rescue part or an ensure part.
pub fn handler<'a, N: Nodes<'a>>(
    emitter: &Emitter<'_, 'a>,
    below: &N,
    at: SourcePosition,
    handler: &'a Handler<Node>,
    out: &mut Output<'a>,
) -> Result<(), NoMemory>
    requires { N.IsReady below.now }
    ensures code { OnOk result (Writes emitter.now.depth (form_shape (where_of emitter.now) (read_handler (texts_of emitter.now) handler.now) (position_of at)) out.old out.new) }
    ensures children { OnOk result (Finds (texts_of emitter.now) (form_direct emitter.now.in_loop (read_handler (texts_of emitter.now) handler.now)) out.old out.new) }
{
    let line = emitter.own(at);
    match handler {
        Handler::Rescue(tree, last, clauses) => {
            rescued(emitter, below, line, tree, last, clauses, out)
        }
        Handler::Ensure(tree, ensure_part) => {
            ensured(emitter, below, line, tree, ensure_part, out)
        },
        Handler::RescueSequence(clauses) => rescue_sequence(emitter, below, line, clauses, out),
        Handler::EnsureSequence(tree) => ensure_sequence(emitter, below, line, tree, out),
    }
}

/// Writes the code of statements with rescue clauses.
fn rescued<'a, N: Nodes<'a>>(
    emitter: &Emitter<'_, 'a>,
    below: &N,
    line: u64,
    tree: &'a Node,
    last: &'a Option<Box<Node>>,
    clauses: &'a Node,
    out: &mut Output<'a>,
) -> Result<(), NoMemory>
    requires { N.IsReady below.now }
    ensures code { OnOk result (Writes emitter.now.depth (held catches.Rescue (size (last_shape (where_of emitter.now) line (read_other (texts_of emitter.now) last.now))) (number_of (where_of emitter.now) (tree_of (texts_of emitter.now) clauses.now)) (shape (where_of emitter.now) (tree_of (texts_of emitter.now) tree.now)) (last_shape (where_of emitter.now) line (read_other (texts_of emitter.now) last.now))) out.old out.new) }
    ensures children { OnOk result (Finds (texts_of emitter.now) (other_direct emitter.now.in_loop (read_other (texts_of emitter.now) last.now) ++ (child kinds.Rescue [] emitter.now.in_loop (tree_of (texts_of emitter.now) clauses.now) ∷ direct emitter.now.in_loop (tree_of (texts_of emitter.now) tree.now))) out.old out.new) }
{
    let go_on = out.code.len();
    behind_else(emitter, below, line, last, out)?;
    let row = end_row(
        emitter,
        CatchKind::Rescue,
        SeqKind::Rescue,
        go_on,
        clauses,
        out,
    )?;
    below.node(emitter, 0, tree, out)?;
    out.code.begin_row(row);
    Ok(())
}

/// Writes the code of the part behind `else` of statements with rescue clauses.
fn behind_else<'a, N: Nodes<'a>>(
    emitter: &Emitter<'_, 'a>,
    below: &N,
    line: u64,
    last: &'a Option<Box<Node>>,
    out: &mut Output<'a>,
) -> Result<(), NoMemory>
    requires { N.IsReady below.now }
    ensures code { OnOk result (Writes emitter.now.depth (last_shape (where_of emitter.now) line (read_other (texts_of emitter.now) last.now)) out.old out.new) }
    ensures children { OnOk result (Finds (texts_of emitter.now) (other_direct emitter.now.in_loop (read_other (texts_of emitter.now) last.now)) out.old out.new) }
{
    match last {
        None => Ok(()),
        Some(tree) => {
            below.node(emitter, 0, tree, out)?;
            out.code.write(line, Instr::Pop)
        }
    }
}

/// Writes the code of statements with an ensure part.
fn ensured<'a, N: Nodes<'a>>(
    emitter: &Emitter<'_, 'a>,
    below: &N,
    line: u64,
    tree: &'a Node,
    ensure_part: &'a Node,
    out: &mut Output<'a>,
) -> Result<(), NoMemory>
    requires { N.IsReady below.now }
    ensures code { OnOk result (Writes emitter.now.depth (held catches.Ensure 0 (number_of (where_of emitter.now) (tree_of (texts_of emitter.now) ensure_part.now)) (part 0 (shape (where_of emitter.now) (tree_of (texts_of emitter.now) tree.now)) (op line (Throw 6) done)) done) out.old out.new) }
    ensures children { OnOk result (Finds (texts_of emitter.now) (child kinds.Ensure [] emitter.now.in_loop (tree_of (texts_of emitter.now) ensure_part.now) ∷ direct emitter.now.in_loop (tree_of (texts_of emitter.now) tree.now)) out.old out.new) }
{
    let go_on = out.code.len();
    let row = end_row(
        emitter,
        CatchKind::Ensure,
        SeqKind::Ensure,
        go_on,
        ensure_part,
        out,
    )?;
    out.code.write(line, Instr::Throw(6))?;
    below.node(emitter, 0, tree, out)?;
    out.code.begin_row(row);
    Ok(())
}

/// Notes a rescue part or an ensure part, and ends the row that it takes. The answer is the number
/// of the row.
fn end_row<'a>(
    emitter: &Emitter<'_, 'a>,
    kind: CatchKind,
    part_kind: SeqKind,
    go_on: u64,
    tree: &'a Node,
    out: &mut Output<'a>,
) -> Result<usize, NoMemory>
    ensures code { OnOk result (written out.new ≡ row_opened kind (length (written out.old).steps - go_on) (number_of (where_of emitter.now) (tree_of (texts_of emitter.now) tree.now)) emitter.now.depth (written out.old)) }
    ensures children { OnOk result (Finds (texts_of emitter.now) (child part_kind [] emitter.now.in_loop (tree_of (texts_of emitter.now) tree.now) ∷ []) out.old out.new) }
    ensures number { IfOk result (λ number. number ≡ length (written out.old).rows) }
{
    out.note(Child {
        kind: part_kind,
        name: None,
        in_loop: emitter.in_loop,
        tree,
    })?;
    let seq = emitter.number_of(tree);
    out.code.end_row(kind, go_on, seq, emitter.depth)
}

/// Writes the code of an ensure part.
fn ensure_sequence<'a, N: Nodes<'a>>(
    emitter: &Emitter<'_, 'a>,
    below: &N,
    line: u64,
    tree: &'a Node,
    out: &mut Output<'a>,
) -> Result<(), NoMemory>
    requires { N.IsReady below.now }
    ensures code { OnOk result (Writes emitter.now.depth (part 0 (shape (where_of emitter.now) (tree_of (texts_of emitter.now) tree.now)) (op line Pop (op line (Throw 0) done))) out.old out.new) }
    ensures children { OnOk result (Finds (texts_of emitter.now) (direct emitter.now.in_loop (tree_of (texts_of emitter.now) tree.now)) out.old out.new) }
{
    out.code.write(line, Instr::Throw(0))?;
    out.code.write(line, Instr::Pop)?;
    below.node(emitter, 0, tree, out)
}

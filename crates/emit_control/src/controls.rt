//! Statements, and what chooses among them.
ghost use Rattle.std.specs.Prelude.{◌≡◌, OnOk};
ghost use Rattle.ruby_tree.specs.SourcePositions.{position_of};
ghost use Rattle.ruby_tree.specs.Views.{read_all, read_control};
ghost use Rattle.compile_table.specs.Shapes.{form_shape, all_shape, rest_shape};
ghost use Rattle.code_emitter.specs.Children.{form_direct, trees_direct};
ghost use Rattle.code_emitter.specs.Emitting.{where_of, texts_of, Writes, Finds};

use crate::cases::case_of;
use crate::choices::{both, either, if_else, negated};
use crate::loops::while_loop;
use crate::tests_of_cases::case_tests;
use bs_outside::NoMemory;
use code_emitter::{Emitter, Nodes, Output};
use iseq_types::Instr;
use ruby_tree::{Control, Node, SourcePosition};

/// Writes the code of statements, or of what chooses among them.
pub fn control<'a, N: Nodes<'a>>(
    emitter: &Emitter<'_, 'a>,
    below: &N,
    at: SourcePosition,
    control: &'a Control<Node>,
    out: &mut Output<'a>,
) -> Result<(), NoMemory>
    requires { N.IsReady below.now }
    ensures code { OnOk result (Writes emitter.now.depth (form_shape (where_of emitter.now) (read_control (texts_of emitter.now) control.now) (position_of at)) out.old out.new) }
    ensures children { OnOk result (Finds (texts_of emitter.now) (form_direct emitter.now.in_loop (read_control (texts_of emitter.now) control.now)) out.old out.new) }
{
    let line = emitter.own(at);
    match control {
        Control::Statements(trees) => statements(emitter, below, line, trees, out),
        Control::And(first, last) => both(emitter, below, line, first, last, out),
        Control::Or(first, last) => either(emitter, below, line, first, last, out),
        Control::Not(tree) => negated(emitter, below, line, tree, out),
        Control::If(condition, tree, last) => {
            if_else(emitter, below, line, condition, tree, last, out)
        }
        Control::While(body, condition, until, body_first) => {
            while_loop(
                emitter,
                below,
                at,
                body,
                condition,
                *until,
                *body_first,
                out,
            )
        }
        Control::Case(value, whens, last) => case_of(emitter, below, line, value, whens, last, out),
        Control::CaseTests(whens, last) => case_tests(emitter, below, line, whens, last, out),
    }
}

/// Writes the code of statements, whose value is that of the last one.
fn statements<'a, N: Nodes<'a>>(
    emitter: &Emitter<'_, 'a>,
    below: &N,
    line: u64,
    trees: &'a [Node],
    out: &mut Output<'a>,
) -> Result<(), NoMemory>
    requires { N.IsReady below.now }
    ensures code { OnOk result (Writes emitter.now.depth (all_shape (where_of emitter.now) line (read_all (texts_of emitter.now) trees.now)) out.old out.new) }
    ensures children { OnOk result (Finds (texts_of emitter.now) (trees_direct emitter.now.in_loop (read_all (texts_of emitter.now) trees.now)) out.old out.new) }
{
    match trees {
        [] => out.code.write(line, Instr::PutNil),
        [first, rest @ ..] => {
            following(emitter, below, line, rest, out)?;
            below.node(emitter, 0, first, out)
        }
    }
}

/// Writes the code of statements behind another one, whose value is dropped.
fn following<'a, N: Nodes<'a>>(
    emitter: &Emitter<'_, 'a>,
    below: &N,
    line: u64,
    trees: &'a [Node],
    out: &mut Output<'a>,
) -> Result<(), NoMemory>
    requires { N.IsReady below.now }
    ensures code { OnOk result (Writes emitter.now.depth (rest_shape (where_of emitter.now) line (read_all (texts_of emitter.now) trees.now)) out.old out.new) }
    ensures children { OnOk result (Finds (texts_of emitter.now) (trees_direct emitter.now.in_loop (read_all (texts_of emitter.now) trees.now)) out.old out.new) }
{
    for i in (0..trees.len()).rev() {
        below.node(emitter, 0, &trees[i], out)?;
        out.code.write(line, Instr::Pop)?;
    }
    Ok(())
}

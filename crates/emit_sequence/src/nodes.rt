//! Writes the code of a node, over what writes the nodes in it.
ghost use Rattle.std.specs.Prelude.{◌≡◌, OnOk};
ghost use Rattle.ruby_tree.specs.SourcePositions.{position_of};
ghost use Rattle.ruby_tree.specs.Read.{tree_of};
ghost use Rattle.ruby_tree.specs.Views.{read_kind};
ghost use Rattle.compile_table.specs.Shapes.{shape, form_shape};
ghost use Rattle.code_emitter.specs.Children.{direct, form_direct};
ghost use Rattle.code_emitter.specs.Emitting.{where_of, texts_of, Writes, Finds};

use bs_outside::NoMemory;
use code_emitter::{Emitter, Nodes, Output};
use ruby_tree::{Kind, Node, SourcePosition};

/// Writes the code of a node.
#[tactic(auto, using(crate::proofs::Opened::node_shape, crate::proofs::Opened::node_direct))]
pub(crate) fn node<'a, N: Nodes<'a>>(
    emitter: &Emitter<'_, 'a>,
    below: &N,
    node: &'a Node,
    out: &mut Output<'a>,
) -> Result<(), NoMemory>
    requires { N.IsReady below.now }
    ensures code { OnOk result (Writes emitter.now.depth (shape (where_of emitter.now) (tree_of (texts_of emitter.now) node.now)) out.old out.new) }
    ensures children { OnOk result (Finds (texts_of emitter.now) (direct emitter.now.in_loop (tree_of (texts_of emitter.now) node.now)) out.old out.new) }
{
    let at = SourcePosition {
        first: node.first,
        line: node.line,
        place: node.place,
    };
    kind(emitter, below, at, &node.kind, out)
}

/// Writes the code of a node of a kind.
pub(crate) fn kind<'a, N: Nodes<'a>>(
    emitter: &Emitter<'_, 'a>,
    below: &N,
    at: SourcePosition,
    kind: &'a Kind<Node>,
    out: &mut Output<'a>,
) -> Result<(), NoMemory>
    requires { N.IsReady below.now }
    ensures code { OnOk result (Writes emitter.now.depth (form_shape (where_of emitter.now) (read_kind (texts_of emitter.now) kind.now) (position_of at)) out.old out.new) }
    ensures children { OnOk result (Finds (texts_of emitter.now) (form_direct emitter.now.in_loop (read_kind (texts_of emitter.now) kind.now)) out.old out.new) }
{
    match kind {
        Kind::Literal(it) => emit_values::literal(emitter, at, it, out),
        Kind::Variable(it) => emit_values::variable(emitter, at, it, out),
        Kind::Collection(it) => emit_values::collection(emitter, below, at, it, out),
        Kind::Assignment(it) => emit_assignments::assignment(emitter, below, at, it, out),
        Kind::Call(it) => emit_calls::call(emitter, below, at, it, out),
        Kind::Control(it) => emit_control::control(emitter, below, at, it, out),
        Kind::Exit(it) => emit_values::exit(emitter, below, at, it, out),
        Kind::Handler(it) => emit_bodies::handler(emitter, below, at, it, out),
        Kind::Definition(it) => emit_bodies::definition(emitter, below, at, it, out),
    }
}

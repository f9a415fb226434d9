//! What writes the nodes in a node.
ghost use Rattle.std.specs.Prelude.{◌≡◌, ◌+◌, OnOk};
ghost use Rattle.ruby_tree.specs.Read.{tree_of};
ghost use Rattle.compile_table.specs.Shapes.{shape};
ghost use Rattle.code_emitter.specs.Children.{direct};
ghost use Rattle.code_emitter.specs.Emitting.{where_of, texts_of, Writes, Finds};

use crate::emitter::Emitter;
use crate::output::Output;
use bs_outside::NoMemory;
use ruby_tree::Node;

/// Writes the nodes that stand in a node.
pub trait Nodes<'a> {
    /// They may be written.
    ghost IsReady: { Self → Type 0 };

    /// Writes the code of a node, which stands so much deeper on the stack.
    fn node(
        &self,
        emitter: &Emitter<'_, 'a>,
        deeper: u64,
        node: &'a Node,
        out: &mut Output<'a>,
    ) -> Result<(), NoMemory>
        requires { IsReady self.now }
        ensures code { OnOk result (Writes (emitter.now.depth + deeper) (shape (where_of emitter.now) (tree_of (texts_of emitter.now) node.now)) out.old out.new) }
        ensures children { OnOk result (Finds (texts_of emitter.now) (direct emitter.now.in_loop (tree_of (texts_of emitter.now) node.now)) out.old out.new) };
}

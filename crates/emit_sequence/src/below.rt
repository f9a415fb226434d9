//! The nodes in a node, as deep as they nest.
ghost use Rattle.std.specs.Prelude.{◌≡◌};
ghost use Rattle.emit_sequence.specs.NodesWritten.{IsWritten};

use bs_outside::NoMemory;
use code_emitter::{Emitter, Nodes, Output};
use ruby_tree::Node;
use std::alloc::AllocError;

/// So many nodes may stand in one another. The tree of a text is at most 200 nodes deep.
pub(crate) const MOST_NESTED: u64 = 256;

/// The nodes in a node, as a function writes them, which may be the one that asks.
#[derive(Drop)]
pub(crate) struct Below<F> {
    /// Writes a node, so much deeper on the stack.
    pub write: F,
}

impl<'a, F: Fn(&Emitter<'_, 'a>, u64, &'a Node, &mut Output<'a>) -> Result<(), NoMemory>> Nodes<'a>
    for Below<F> {
    ghost IsReady = { λ it. ((emitter : _) (deeper : _) (node : _) (out : _) → F.pre it.write emitter deeper node out) × ((emitter : _) (deeper : _) (node : _) (out : _) (result : _) (after : _) → F.post it.write emitter deeper node out result after → IsWritten emitter.now deeper node.now out.now after.now result) };

    fn node(
        &self,
        emitter: &Emitter<'_, 'a>,
        deeper: u64,
        node: &'a Node,
        out: &mut Output<'a>,
    ) -> Result<(), NoMemory> {
        (self.write)(emitter, deeper, node, out)
    }
}

/// What writes the nodes in a node by this function.
pub(crate) fn writing_by<
    'a,
    F: Fn(&Emitter<'_, 'a>, u64, &'a Node, &mut Output<'a>) -> Result<(), NoMemory>,
>(write: F) -> Below<F>
    ensures { result.write ≡ write }
{
    Below { write }
}

/// Writes the code of a node in which so many nodes may stand in one another. Deeper ones want more
/// memory than there is.
pub(crate) fn write<'a>(
    nested: u64,
    emitter: &Emitter<'_, 'a>,
    deeper: u64,
    node: &'a Node,
    out: &mut Output<'a>,
) -> Result<(), NoMemory>
    ensures { IsWritten emitter.now deeper node.now out.old out.new result }
{
    if nested == 0 {
        return Err(AllocError);
    }
    let less = nested - 1;
    let below = writing_by(
        |emitter, deeper, node, out| -> Result<(), NoMemory>
            ensures { IsWritten emitter.now deeper node.now out.old out.new result }
        { write(less, emitter, deeper, node, out) },
    );
    let emitter = emitter.deeper(deeper)?;
    crate::nodes::node(&emitter, &below, node, out)
}

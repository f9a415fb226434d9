//! Calls.
ghost use Rattle.std.specs.Prelude.{IfOk};
ghost use Rattle.ruby_tree.specs.Names.{Texts, Bytes};
ghost use Rattle.ruby_tree.specs.Tree.{Tree, Trees, Other, at, send, safe_send, yield, super, bare_super, bare_raise};
ghost use Rattle.ruby_tree.specs.SourcePositions.{position_of};
ghost use Rattle.tree_builder.specs.Subtrees.{IsNamed, Holds, HoldsAll, HoldsOther};

use super::kept::{boxed, deeper, grown};
use super::{ElseSubtree, Subtree, Subtrees};
use bs_outside::NoMemory;
use ruby_tree::{Call, Kind, Name, SourcePosition};
use std::alloc::Global;

/// The receiver, the arguments with the places of those that are spread, the block value, the name, whether it stands alone, and the block.
#[allow(clippy::too_many_arguments)]
pub fn send(
    position: SourcePosition,
    receiver: ElseSubtree,
    arguments: Subtrees,
    spread: Vec<u64>,
    value: ElseSubtree,
    name: Name,
    alone: bool,
    block: ElseSubtree,
) -> Subtree
    ensures made { (T : Texts) (a : Other) (ts : Trees) (v : Other) (m : Bytes) (b : Other) → HoldsOther T receiver a → HoldsAll T arguments ts → HoldsOther T value v → IsNamed T name m → HoldsOther T block b → Holds T result (at (position_of position) (send a ts spread.items v m alone b)) }
{
    let depth = deeper(
        receiver.depth,
        deeper(arguments.depth, deeper(value.depth, block.depth)),
    );
    let kind = Call::Send(
        receiver.node,
        arguments.nodes,
        spread,
        value.node,
        name,
        alone,
        block.node,
    );
    grown(position, Kind::Call(kind), depth)
}

/// `a&.m`
#[allow(clippy::too_many_arguments)]
pub fn safe_send(
    alloc: Global,
    position: SourcePosition,
    receiver: Subtree,
    arguments: Subtrees,
    spread: Vec<u64>,
    value: ElseSubtree,
    name: Name,
    block: ElseSubtree,
) -> Result<Subtree, NoMemory>
    ensures made { (T : Texts) (a : Tree) (ts : Trees) (v : Other) (m : Bytes) (b : Other) → Holds T receiver a → HoldsAll T arguments ts → HoldsOther T value v → IsNamed T name m → HoldsOther T block b → IfOk result (λ part. Holds T part (at (position_of position) (safe_send a ts spread.items v m b))) }
{
    let depth = deeper(
        receiver.depth,
        deeper(arguments.depth, deeper(value.depth, block.depth)),
    );
    let receiver = boxed(alloc, receiver)?;
    let kind = Call::SafeSend(
        receiver,
        arguments.nodes,
        spread,
        value.node,
        name,
        block.node,
    );
    Ok(grown(position, Kind::Call(kind), depth))
}

/// `yield`
pub fn yield_with(position: SourcePosition, arguments: Subtrees, spread: Vec<u64>) -> Subtree
    ensures made { (T : Texts) (ts : Trees) → HoldsAll T arguments ts → Holds T result (at (position_of position) (yield ts spread.items)) }
{
    let depth = arguments.depth;
    let kind = Call::Yield(arguments.nodes, spread);
    grown(position, Kind::Call(kind), depth)
}

/// `super` with arguments or brackets.
pub fn super_with(
    position: SourcePosition,
    arguments: Subtrees,
    spread: Vec<u64>,
    value: ElseSubtree,
    block: ElseSubtree,
) -> Subtree
    ensures made { (T : Texts) (ts : Trees) (v b : Other) → HoldsAll T arguments ts → HoldsOther T value v → HoldsOther T block b → Holds T result (at (position_of position) (super ts spread.items v b)) }
{
    let depth = deeper(arguments.depth, deeper(value.depth, block.depth));
    let kind = Call::Super(arguments.nodes, spread, value.node, block.node);
    grown(position, Kind::Call(kind), depth)
}

/// `super` alone, with its block.
pub fn bare_super(position: SourcePosition, block: ElseSubtree) -> Subtree
    ensures made { (T : Texts) (b : Other) → HoldsOther T block b → Holds T result (at (position_of position) (bare_super b)) }
{
    let depth = block.depth;
    let kind = Call::BareSuper(block.node);
    grown(position, Kind::Call(kind), depth)
}

/// `raise` alone in a rescue clause.
pub fn bare_raise(position: SourcePosition) -> Subtree
    ensures made { (T : Texts) → Holds T result (at (position_of position) bare_raise) }
{
    grown(position, Kind::Call(Call::BareRaise), 0)
}

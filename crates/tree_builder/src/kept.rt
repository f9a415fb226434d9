//! Nodes over parts, where they are not too deep.
ghost use Rattle.std.specs.Prelude.{◌≡◌, ◌≤◌, IfOk, max};
ghost use Rattle.ruby_tree.specs.Names.{Texts};
ghost use Rattle.ruby_tree.specs.Tree.{Tree, at, Form};
ghost use Rattle.ruby_tree.specs.Depth.{depth};
ghost use Rattle.ruby_tree.specs.SourcePositions.{position_of};
ghost use Rattle.tree_builder.specs.Subtrees.{IsNode, IsKind, IsPart, Holds, HoldsKind};

use super::{MAX_DEPTH, Subtree};
use bs_outside::NoMemory;
use ruby_tree::{Kind, Literal, Node, SourcePosition};
use std::alloc::Global;

// A node of this kind, whose deepest part has this depth.
pub fn grown(position: SourcePosition, kind: Kind<Node>, depth: u64) -> Subtree
    ensures { (T : Texts) (f : Form) → HoldsKind T kind depth f → Holds T result (at (position_of position) f) }
{
    if depth < MAX_DEPTH {
        Subtree {
            node: node_at(position, kind),
            depth: depth + 1,
        }
    } else {
        too_deep(position)
    }
}

// A node of this kind.
fn node_at(position: SourcePosition, kind: Kind<Node>) -> Node
    ensures { (U : Texts) (f : Form) → IsKind U kind f → IsNode U result (at (position_of position) f) }
{
    Node {
        first: position.first,
        line: position.line,
        place: position.place,
        kind,
    }
}

// A part that is too deep.
pub fn too_deep(position: SourcePosition) -> Subtree
    ensures { (T : Texts) (t : Tree) → 201 ≤ depth t → Holds T result t }
{
    Subtree {
        node: node_at(position, Kind::Literal(Literal::Nil)),
        depth: MAX_DEPTH + 1,
    }
}

// The node of a part, in a box.
pub fn boxed(alloc: Global, part: Subtree) -> Result<Box<Node>, NoMemory>
    ensures { IfOk result (λ b. (T : Texts) (t : Tree) → Holds T part t → IsPart T b.value part.depth t) }
{
    Ok(Box::new(alloc, part.node)?)
}

// Two nodes in boxes.
#[derive(Drop)]
pub struct TwoBoxes {
    pub first: Box<Node>,
    pub second: Box<Node>,
    // How deep the deeper one is.
    pub depth: u64,
}

pub fn two_boxes(alloc: Global, first: Subtree, second: Subtree) -> Result<TwoBoxes, NoMemory>
    ensures first { IfOk result (λ two. (T : Texts) (t : Tree) → Holds T first t → IsPart T two.first.value first.depth t) }
    ensures second { IfOk result (λ two. (T : Texts) (t : Tree) → Holds T second t → IsPart T two.second.value second.depth t) }
    ensures depth { IfOk result (λ two. two.depth ≡ max first.depth second.depth) }
{
    let depth = deeper(first.depth, second.depth);
    let first = boxed(alloc, first)?;
    let second = boxed(alloc, second)?;
    Ok(TwoBoxes {
        first,
        second,
        depth,
    })
}

// Three nodes in boxes.
#[derive(Drop)]
pub struct ThreeBoxes {
    pub first: Box<Node>,
    pub second: Box<Node>,
    pub third: Box<Node>,
    // How deep the deepest one is.
    pub depth: u64,
}

pub fn three_boxes(
    alloc: Global,
    first: Subtree,
    second: Subtree,
    third: Subtree,
) -> Result<ThreeBoxes, NoMemory>
    ensures first { IfOk result (λ three. (T : Texts) (t : Tree) → Holds T first t → IsPart T three.first.value first.depth t) }
    ensures second { IfOk result (λ three. (T : Texts) (t : Tree) → Holds T second t → IsPart T three.second.value second.depth t) }
    ensures third { IfOk result (λ three. (T : Texts) (t : Tree) → Holds T third t → IsPart T three.third.value third.depth t) }
    ensures depth { IfOk result (λ three. three.depth ≡ max first.depth (max second.depth third.depth)) }
{
    let depth = deeper(first.depth, deeper(second.depth, third.depth));
    let first = boxed(alloc, first)?;
    let second = boxed(alloc, second)?;
    let third = boxed(alloc, third)?;
    Ok(ThreeBoxes {
        first,
        second,
        third,
        depth,
    })
}

pub fn deeper(a: u64, b: u64) -> u64
    ensures { result ≡ max a b }
{
    if a < b { b } else { a }
}

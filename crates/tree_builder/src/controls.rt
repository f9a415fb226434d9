//! Statements, and what chooses among them.
ghost use Rattle.std.specs.Prelude.{IfOk};
ghost use Rattle.ruby_tree.specs.Names.{Texts};
ghost use Rattle.ruby_tree.specs.Tree.{Tree, Trees, Other, Whens, at, statements, both, either, negated, if_else, while_loop, case_of, case_tests, return_with, break_with, next_with, retry};
ghost use Rattle.ruby_tree.specs.SourcePositions.{position_of};
ghost use Rattle.tree_builder.specs.Subtrees.{Holds, HoldsAll, HoldsOther, HoldsWhens};

use super::kept::{boxed, deeper, grown, two_boxes};
use super::{ElseSubtree, Subtree, Subtrees, WhenSubtrees};
use bs_outside::NoMemory;
use ruby_tree::{Control, Exit, Kind, SourcePosition};
use std::alloc::Global;

/// Statements.
pub fn statements(position: SourcePosition, parts: Subtrees) -> Subtree
    ensures made { (T : Texts) (ts : Trees) → HoldsAll T parts ts → Holds T result (at (position_of position) (statements ts)) }
{
    let depth = parts.depth;
    let kind = Control::Statements(parts.nodes);
    grown(position, Kind::Control(kind), depth)
}

/// `a && b`
pub fn both(
    alloc: Global,
    position: SourcePosition,
    left: Subtree,
    right: Subtree,
) -> Result<Subtree, NoMemory>
    ensures made { (T : Texts) (a b : Tree) → Holds T left a → Holds T right b → IfOk result (λ part. Holds T part (at (position_of position) (both a b))) }
{
    let two = two_boxes(alloc, left, right)?;
    let kind = Control::And(two.first, two.second);
    Ok(grown(position, Kind::Control(kind), two.depth))
}

/// `a || b`
pub fn either(
    alloc: Global,
    position: SourcePosition,
    left: Subtree,
    right: Subtree,
) -> Result<Subtree, NoMemory>
    ensures made { (T : Texts) (a b : Tree) → Holds T left a → Holds T right b → IfOk result (λ part. Holds T part (at (position_of position) (either a b))) }
{
    let two = two_boxes(alloc, left, right)?;
    let kind = Control::Or(two.first, two.second);
    Ok(grown(position, Kind::Control(kind), two.depth))
}

/// `!a`
pub fn negated(alloc: Global, position: SourcePosition, part: Subtree) -> Result<Subtree, NoMemory>
    ensures made { (T : Texts) (a : Tree) → Holds T part a → IfOk result (λ part. Holds T part (at (position_of position) (negated a))) }
{
    let depth = part.depth;
    let part = boxed(alloc, part)?;
    let kind = Control::Not(part);
    Ok(grown(position, Kind::Control(kind), depth))
}

/// The condition, what follows where it holds, and what follows where it does not.
pub fn if_else(
    alloc: Global,
    position: SourcePosition,
    condition: Subtree,
    chosen: Subtree,
    other: ElseSubtree,
) -> Result<Subtree, NoMemory>
    ensures made { (T : Texts) (c a : Tree) (b : Other) → Holds T condition c → Holds T chosen a → HoldsOther T other b → IfOk result (λ part. Holds T part (at (position_of position) (if_else c a b))) }
{
    let two = two_boxes(alloc, condition, chosen)?;
    let depth = deeper(two.depth, other.depth);
    let kind = Control::If(two.first, two.second, other.node);
    Ok(grown(position, Kind::Control(kind), depth))
}

/// The body, the condition, whether it ends where the condition holds, and whether the body comes first.
pub fn while_loop(
    alloc: Global,
    position: SourcePosition,
    body: Subtree,
    condition: Subtree,
    until: bool,
    body_first: bool,
) -> Result<Subtree, NoMemory>
    ensures made { (T : Texts) (a c : Tree) → Holds T body a → Holds T condition c → IfOk result (λ part. Holds T part (at (position_of position) (while_loop a c until body_first))) }
{
    let two = two_boxes(alloc, body, condition)?;
    let kind = Control::While(two.first, two.second, until, body_first);
    Ok(grown(position, Kind::Control(kind), two.depth))
}

/// A `case` with a value.
pub fn case_of(
    alloc: Global,
    position: SourcePosition,
    value: Subtree,
    whens: WhenSubtrees,
    other: ElseSubtree,
) -> Result<Subtree, NoMemory>
    ensures made { (T : Texts) (a : Tree) (ws : Whens) (e : Other) → Holds T value a → HoldsWhens T whens ws → HoldsOther T other e → IfOk result (λ part. Holds T part (at (position_of position) (case_of a ws e))) }
{
    let depth = deeper(value.depth, deeper(whens.depth, other.depth));
    let value = boxed(alloc, value)?;
    let kind = Control::Case(value, whens.whens, other.node);
    Ok(grown(position, Kind::Control(kind), depth))
}

/// A `case` without a value.
pub fn case_tests(position: SourcePosition, whens: WhenSubtrees, other: ElseSubtree) -> Subtree
    ensures made { (T : Texts) (ws : Whens) (e : Other) → HoldsWhens T whens ws → HoldsOther T other e → Holds T result (at (position_of position) (case_tests ws e)) }
{
    let depth = deeper(whens.depth, other.depth);
    let kind = Control::CaseTests(whens.whens, other.node);
    grown(position, Kind::Control(kind), depth)
}

/// `return`
pub fn return_with(position: SourcePosition, values: Subtrees) -> Subtree
    ensures made { (T : Texts) (ts : Trees) → HoldsAll T values ts → Holds T result (at (position_of position) (return_with ts)) }
{
    let depth = values.depth;
    let kind = Exit::Return(values.nodes);
    grown(position, Kind::Exit(kind), depth)
}

/// `break`
pub fn break_with(position: SourcePosition, values: Subtrees) -> Subtree
    ensures made { (T : Texts) (ts : Trees) → HoldsAll T values ts → Holds T result (at (position_of position) (break_with ts)) }
{
    let depth = values.depth;
    let kind = Exit::Break(values.nodes);
    grown(position, Kind::Exit(kind), depth)
}

/// `next`
pub fn next_with(position: SourcePosition, values: Subtrees) -> Subtree
    ensures made { (T : Texts) (ts : Trees) → HoldsAll T values ts → Holds T result (at (position_of position) (next_with ts)) }
{
    let depth = values.depth;
    let kind = Exit::Next(values.nodes);
    grown(position, Kind::Exit(kind), depth)
}

/// `retry`
pub fn retry(position: SourcePosition) -> Subtree
    ensures made { (T : Texts) → Holds T result (at (position_of position) retry) }
{
    grown(position, Kind::Exit(Exit::Retry), 0)
}

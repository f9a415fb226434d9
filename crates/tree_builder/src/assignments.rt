//! What sets a variable, a constant, an attribute or an element.
ghost use Rattle.std.specs.Prelude.{List, IfOk};
ghost use Rattle.ruby_tree.specs.Names.{Texts, Bytes};
ghost use Rattle.ruby_tree.specs.Tree.{Tree, Trees, Goal, at, assign, assign_all, assign_attribute, assign_index, operate_attribute, or_attribute, and_attribute, operate_index, or_index, and_index};
ghost use Rattle.ruby_tree.specs.SourcePositions.{position_of};
ghost use Rattle.tree_builder.specs.Subtrees.{IsNamed, IsTarget, AreTargets, Holds, HoldsAll};

use super::kept::{boxed, grown, three_boxes, two_boxes};
use super::{Subtree, Subtrees};
use bs_outside::NoMemory;
use ruby_tree::{Assignment, Kind, Name, SourcePosition, Target};
use std::alloc::Global;

/// `x = v`
pub fn assign(
    alloc: Global,
    position: SourcePosition,
    value: Subtree,
    target: Target,
) -> Result<Subtree, NoMemory>
    ensures made { (T : Texts) (v : Tree) (g : Goal) → Holds T value v → IsTarget T target g → IfOk result (λ part. Holds T part (at (position_of position) (assign v g))) }
{
    let depth = value.depth;
    let value = boxed(alloc, value)?;
    let kind = Assignment::Single(value, target);
    Ok(grown(position, Kind::Assignment(kind), depth))
}

/// `x, y = v`
pub fn assign_all(position: SourcePosition, values: Subtrees, targets: Vec<Target>) -> Subtree
    ensures made { (T : Texts) (vs : Trees) (gs : List Goal) → HoldsAll T values vs → AreTargets T targets.items gs → Holds T result (at (position_of position) (assign_all vs gs)) }
{
    let depth = values.depth;
    let kind = Assignment::Multiple(values.nodes, targets);
    grown(position, Kind::Assignment(kind), depth)
}

/// `a.m = v`: the receiver, the value and the name `m=`.
pub fn assign_attribute(
    alloc: Global,
    position: SourcePosition,
    receiver: Subtree,
    value: Subtree,
    setter: Name,
) -> Result<Subtree, NoMemory>
    ensures made { (T : Texts) (a v : Tree) (m : Bytes) → Holds T receiver a → Holds T value v → IsNamed T setter m → IfOk result (λ part. Holds T part (at (position_of position) (assign_attribute a v m))) }
{
    let two = two_boxes(alloc, receiver, value)?;
    let kind = Assignment::Attribute(two.first, two.second, setter);
    Ok(grown(position, Kind::Assignment(kind), two.depth))
}

/// `a[i] = v`
pub fn assign_index(
    alloc: Global,
    position: SourcePosition,
    receiver: Subtree,
    index: Subtree,
    value: Subtree,
) -> Result<Subtree, NoMemory>
    ensures made { (T : Texts) (a i v : Tree) → Holds T receiver a → Holds T index i → Holds T value v → IfOk result (λ part. Holds T part (at (position_of position) (assign_index a i v))) }
{
    let three = three_boxes(alloc, receiver, index, value)?;
    let kind = Assignment::Index(three.first, three.second, three.third);
    Ok(grown(position, Kind::Assignment(kind), three.depth))
}

/// `a.m op= v`: the receiver, `m`, the value, the operator, `m=` and the line of the operator.
#[allow(clippy::too_many_arguments)]
pub fn operate_attribute(
    alloc: Global,
    position: SourcePosition,
    receiver: Subtree,
    name: Name,
    value: Subtree,
    operator: Name,
    setter: Name,
    line: u64,
) -> Result<Subtree, NoMemory>
    ensures made { (T : Texts) (a : Tree) (x : Bytes) (v : Tree) (o m : Bytes) → Holds T receiver a → IsNamed T name x → Holds T value v → IsNamed T operator o → IsNamed T setter m → IfOk result (λ part. Holds T part (at (position_of position) (operate_attribute a x v o m line))) }
{
    let two = two_boxes(alloc, receiver, value)?;
    let kind = Assignment::AttributeOperator(two.first, name, two.second, operator, setter, line);
    Ok(grown(position, Kind::Assignment(kind), two.depth))
}

/// `a.m ||= v`
pub fn or_attribute(
    alloc: Global,
    position: SourcePosition,
    receiver: Subtree,
    name: Name,
    value: Subtree,
    setter: Name,
) -> Result<Subtree, NoMemory>
    ensures made { (T : Texts) (a : Tree) (x : Bytes) (v : Tree) (m : Bytes) → Holds T receiver a → IsNamed T name x → Holds T value v → IsNamed T setter m → IfOk result (λ part. Holds T part (at (position_of position) (or_attribute a x v m))) }
{
    let two = two_boxes(alloc, receiver, value)?;
    let kind = Assignment::AttributeOr(two.first, name, two.second, setter);
    Ok(grown(position, Kind::Assignment(kind), two.depth))
}

/// `a.m &&= v`
pub fn and_attribute(
    alloc: Global,
    position: SourcePosition,
    receiver: Subtree,
    name: Name,
    value: Subtree,
    setter: Name,
) -> Result<Subtree, NoMemory>
    ensures made { (T : Texts) (a : Tree) (x : Bytes) (v : Tree) (m : Bytes) → Holds T receiver a → IsNamed T name x → Holds T value v → IsNamed T setter m → IfOk result (λ part. Holds T part (at (position_of position) (and_attribute a x v m))) }
{
    let two = two_boxes(alloc, receiver, value)?;
    let kind = Assignment::AttributeAnd(two.first, name, two.second, setter);
    Ok(grown(position, Kind::Assignment(kind), two.depth))
}

/// `a[i] op= v`: the line is that of the operator.
pub fn operate_index(
    alloc: Global,
    position: SourcePosition,
    receiver: Subtree,
    index: Subtree,
    value: Subtree,
    operator: Name,
    line: u64,
) -> Result<Subtree, NoMemory>
    ensures made { (T : Texts) (a i v : Tree) (o : Bytes) → Holds T receiver a → Holds T index i → Holds T value v → IsNamed T operator o → IfOk result (λ part. Holds T part (at (position_of position) (operate_index a i v o line))) }
{
    let three = three_boxes(alloc, receiver, index, value)?;
    let kind = Assignment::IndexOperator(three.first, three.second, three.third, operator, line);
    Ok(grown(position, Kind::Assignment(kind), three.depth))
}

/// `a[i] ||= v`
pub fn or_index(
    alloc: Global,
    position: SourcePosition,
    receiver: Subtree,
    index: Subtree,
    value: Subtree,
) -> Result<Subtree, NoMemory>
    ensures made { (T : Texts) (a i v : Tree) → Holds T receiver a → Holds T index i → Holds T value v → IfOk result (λ part. Holds T part (at (position_of position) (or_index a i v))) }
{
    let three = three_boxes(alloc, receiver, index, value)?;
    let kind = Assignment::IndexOr(three.first, three.second, three.third);
    Ok(grown(position, Kind::Assignment(kind), three.depth))
}

/// `a[i] &&= v`
pub fn and_index(
    alloc: Global,
    position: SourcePosition,
    receiver: Subtree,
    index: Subtree,
    value: Subtree,
) -> Result<Subtree, NoMemory>
    ensures made { (T : Texts) (a i v : Tree) → Holds T receiver a → Holds T index i → Holds T value v → IfOk result (λ part. Holds T part (at (position_of position) (and_index a i v))) }
{
    let three = three_boxes(alloc, receiver, index, value)?;
    let kind = Assignment::IndexAnd(three.first, three.second, three.third);
    Ok(grown(position, Kind::Assignment(kind), three.depth))
}

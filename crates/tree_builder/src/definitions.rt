//! Statements with clauses, and methods, classes and bodies.
ghost use Rattle.std.specs.Prelude.{IfOk};
ghost use Rattle.ruby_tree.specs.Names.{Texts, Bytes};
ghost use Rattle.ruby_tree.specs.Tree.{Tree, Other, Rescues, Params, at, rescue, ensure, rescue_sequence, ensure_sequence, method, class, module_named, body};
ghost use Rattle.ruby_tree.specs.SourcePositions.{position_of};
ghost use Rattle.tree_builder.specs.Subtrees.{IsNamed, Holds, HoldsOther, HoldsRescues, HoldsParams};

use super::kept::{boxed, deeper, grown, two_boxes};
use super::{ElseSubtree, ParamSubtrees, RescueSubtrees, Subtree};
use bs_outside::NoMemory;
use ruby_tree::{Definition, Handler, Kind, Name, SourcePosition};
use std::alloc::Global;

/// The statements, the part behind `else`, and the clauses.
pub fn rescue(
    alloc: Global,
    position: SourcePosition,
    tried: Subtree,
    other: ElseSubtree,
    clauses: Subtree,
) -> Result<Subtree, NoMemory>
    ensures made { (T : Texts) (a : Tree) (e : Other) (c : Tree) → Holds T tried a → HoldsOther T other e → Holds T clauses c → IfOk result (λ part. Holds T part (at (position_of position) (rescue a e c))) }
{
    let two = two_boxes(alloc, tried, clauses)?;
    let depth = deeper(two.depth, other.depth);
    let kind = Handler::Rescue(two.first, other.node, two.second);
    Ok(grown(position, Kind::Handler(kind), depth))
}

/// The statements with their rescue clauses, and the part behind `ensure`.
pub fn ensure(
    alloc: Global,
    position: SourcePosition,
    tried: Subtree,
    last: Subtree,
) -> Result<Subtree, NoMemory>
    ensures made { (T : Texts) (a c : Tree) → Holds T tried a → Holds T last c → IfOk result (λ part. Holds T part (at (position_of position) (ensure a c))) }
{
    let two = two_boxes(alloc, tried, last)?;
    let kind = Handler::Ensure(two.first, two.second);
    Ok(grown(position, Kind::Handler(kind), two.depth))
}

/// The clauses of a `rescue`.
pub fn rescue_sequence(position: SourcePosition, clauses: RescueSubtrees) -> Subtree
    ensures made { (T : Texts) (cs : Rescues) → HoldsRescues T clauses cs → Holds T result (at (position_of position) (rescue_sequence cs)) }
{
    let depth = clauses.depth;
    let kind = Handler::RescueSequence(clauses.clauses);
    grown(position, Kind::Handler(kind), depth)
}

/// The part behind `ensure`.
pub fn ensure_sequence(
    alloc: Global,
    position: SourcePosition,
    last: Subtree,
) -> Result<Subtree, NoMemory>
    ensures made { (T : Texts) (a : Tree) → Holds T last a → IfOk result (λ part. Holds T part (at (position_of position) (ensure_sequence a))) }
{
    let depth = last.depth;
    let last = boxed(alloc, last)?;
    let kind = Handler::EnsureSequence(last);
    Ok(grown(position, Kind::Handler(kind), depth))
}

/// The name, the body, and whether it is defined on `self`.
pub fn method(
    alloc: Global,
    position: SourcePosition,
    name: Name,
    code: Subtree,
    on_self: bool,
) -> Result<Subtree, NoMemory>
    ensures made { (T : Texts) (m : Bytes) (a : Tree) → IsNamed T name m → Holds T code a → IfOk result (λ part. Holds T part (at (position_of position) (method m a on_self))) }
{
    let depth = code.depth;
    let code = boxed(alloc, code)?;
    let kind = Definition::Method(name, code, on_self);
    Ok(grown(position, Kind::Definition(kind), depth))
}

/// The superclass, the name and the body.
pub fn class(
    alloc: Global,
    position: SourcePosition,
    superclass: ElseSubtree,
    name: Name,
    code: Subtree,
) -> Result<Subtree, NoMemory>
    ensures made { (T : Texts) (c : Other) (m : Bytes) (a : Tree) → HoldsOther T superclass c → IsNamed T name m → Holds T code a → IfOk result (λ part. Holds T part (at (position_of position) (class c m a))) }
{
    let depth = deeper(superclass.depth, code.depth);
    let code = boxed(alloc, code)?;
    let kind = Definition::Class(superclass.node, name, code);
    Ok(grown(position, Kind::Definition(kind), depth))
}

/// The name and the body.
pub fn module_named(
    alloc: Global,
    position: SourcePosition,
    name: Name,
    code: Subtree,
) -> Result<Subtree, NoMemory>
    ensures made { (T : Texts) (m : Bytes) (a : Tree) → IsNamed T name m → Holds T code a → IfOk result (λ part. Holds T part (at (position_of position) (module_named m a))) }
{
    let depth = code.depth;
    let code = boxed(alloc, code)?;
    let kind = Definition::Module(name, code);
    Ok(grown(position, Kind::Definition(kind), depth))
}

/// The body of a method, a class, a module or a block.
pub fn body(
    alloc: Global,
    position: SourcePosition,
    params: ParamSubtrees,
    code: Subtree,
) -> Result<Subtree, NoMemory>
    ensures made { (T : Texts) (ps : Params) (a : Tree) → HoldsParams T params ps → Holds T code a → IfOk result (λ part. Holds T part (at (position_of position) (body ps a))) }
{
    let depth = deeper(params.depth, code.depth);
    let code = boxed(alloc, code)?;
    let kind = Definition::Body(params.params, code);
    Ok(grown(position, Kind::Definition(kind), depth))
}

//! Values: those that are written as they are, variables, and what is made of others.
ghost use Rattle.std.specs.Prelude.{List, IfOk};
ghost use Rattle.ruby_tree.specs.Names.{Texts, Bytes};
ghost use Rattle.ruby_tree.specs.Tree.{Tree, Trees, Other, Pairs, Pieces, at, nil_value, true_value, false_value, integer, symbol, text, self_value, file_name, folder_name, line_number, local, instance, global, joined, array, hash, range, constant_path};
ghost use Rattle.ruby_tree.specs.SourcePositions.{position_of};
ghost use Rattle.tree_builder.specs.Subtrees.{IsNamed, AreNamed, Holds, HoldsAll, HoldsOther, HoldsPairs, HoldsPieces};

use super::kept::{grown, two_boxes};
use super::{ElseSubtree, PairSubtrees, PieceSubtrees, Subtree, Subtrees};
use bs_outside::{Bytes, NoMemory};
use ruby_tree::{Collection, Kind, Literal, Name, SourcePosition, Variable};
use std::alloc::Global;

/// `nil`
pub fn nil_value(position: SourcePosition) -> Subtree
    ensures made { (T : Texts) → Holds T result (at (position_of position) nil_value) }
{
    grown(position, Kind::Literal(Literal::Nil), 0)
}

/// `true`
pub fn true_value(position: SourcePosition) -> Subtree
    ensures made { (T : Texts) → Holds T result (at (position_of position) true_value) }
{
    grown(position, Kind::Literal(Literal::True), 0)
}

/// `false`
pub fn false_value(position: SourcePosition) -> Subtree
    ensures made { (T : Texts) → Holds T result (at (position_of position) false_value) }
{
    grown(position, Kind::Literal(Literal::False), 0)
}

/// A number.
pub fn integer(position: SourcePosition, value: i64) -> Subtree
    ensures made { (T : Texts) → Holds T result (at (position_of position) (integer value)) }
{
    grown(position, Kind::Literal(Literal::Integer(value)), 0)
}

/// A symbol, by its name.
pub fn symbol(position: SourcePosition, name: Name) -> Subtree
    ensures made { (T : Texts) (x : Bytes) → IsNamed T name x → Holds T result (at (position_of position) (symbol x)) }
{
    grown(position, Kind::Literal(Literal::Symbol(name)), 0)
}

/// A text without code.
pub fn text(position: SourcePosition, bytes: Bytes) -> Subtree
    ensures made { (T : Texts) → Holds T result (at (position_of position) (text bytes)) }
{
    grown(position, Kind::Literal(Literal::String(bytes)), 0)
}

/// `self`
pub fn self_value(position: SourcePosition) -> Subtree
    ensures made { (T : Texts) → Holds T result (at (position_of position) self_value) }
{
    grown(position, Kind::Literal(Literal::SelfValue), 0)
}

/// `__FILE__`
pub fn file_name(position: SourcePosition) -> Subtree
    ensures made { (T : Texts) → Holds T result (at (position_of position) file_name) }
{
    grown(position, Kind::Literal(Literal::File), 0)
}

/// `__dir__`
pub fn folder_name(position: SourcePosition) -> Subtree
    ensures made { (T : Texts) → Holds T result (at (position_of position) folder_name) }
{
    grown(position, Kind::Literal(Literal::Folder), 0)
}

/// `__LINE__`
pub fn line_number(position: SourcePosition) -> Subtree
    ensures made { (T : Texts) → Holds T result (at (position_of position) line_number) }
{
    grown(position, Kind::Literal(Literal::Line), 0)
}

/// A local variable.
pub fn local(position: SourcePosition, name: Name) -> Subtree
    ensures made { (T : Texts) (x : Bytes) → IsNamed T name x → Holds T result (at (position_of position) (local x)) }
{
    grown(position, Kind::Variable(Variable::Local(name)), 0)
}

/// An instance variable, by its name with the `@`.
pub fn instance(position: SourcePosition, name: Name) -> Subtree
    ensures made { (T : Texts) (x : Bytes) → IsNamed T name x → Holds T result (at (position_of position) (instance x)) }
{
    grown(position, Kind::Variable(Variable::Instance(name)), 0)
}

/// A global variable, by its name with the `$`.
pub fn global(position: SourcePosition, name: Name) -> Subtree
    ensures made { (T : Texts) (x : Bytes) → IsNamed T name x → Holds T result (at (position_of position) (global x)) }
{
    grown(position, Kind::Variable(Variable::Global(name)), 0)
}

/// A text with code.
pub fn joined(position: SourcePosition, pieces: PieceSubtrees) -> Subtree
    ensures made { (T : Texts) (ps : Pieces) → HoldsPieces T pieces ps → Holds T result (at (position_of position) (joined ps)) }
{
    let depth = pieces.depth;
    let kind = Collection::Text(pieces.pieces);
    grown(position, Kind::Collection(kind), depth)
}

/// The elements, and the places of those that are spread.
pub fn array(position: SourcePosition, elements: Subtrees, spread: Vec<u64>) -> Subtree
    ensures made { (T : Texts) (ts : Trees) → HoldsAll T elements ts → Holds T result (at (position_of position) (array ts spread.items)) }
{
    let depth = elements.depth;
    let kind = Collection::Array(elements.nodes, spread);
    grown(position, Kind::Collection(kind), depth)
}

/// Keys and values.
pub fn hash(position: SourcePosition, pairs: PairSubtrees) -> Subtree
    ensures made { (T : Texts) (ps : Pairs) → HoldsPairs T pairs ps → Holds T result (at (position_of position) (hash ps)) }
{
    let depth = pairs.depth;
    let kind = Collection::Hash(pairs.pairs);
    grown(position, Kind::Collection(kind), depth)
}

/// Two ends, and whether the last one is left out.
pub fn range(
    alloc: Global,
    position: SourcePosition,
    from: Subtree,
    to: Subtree,
    exclusive: bool,
) -> Result<Subtree, NoMemory>
    ensures made { (T : Texts) (a b : Tree) → Holds T from a → Holds T to b → IfOk result (λ part. Holds T part (at (position_of position) (range a b exclusive))) }
{
    let two = two_boxes(alloc, from, to)?;
    let kind = Collection::Range(two.first, two.second, exclusive);
    Ok(grown(position, Kind::Collection(kind), two.depth))
}

/// The value before the first `::`, whether the path begins with `::`, and the names.
pub fn constant_path(
    position: SourcePosition,
    value: ElseSubtree,
    top: bool,
    names: Vec<Name>,
) -> Subtree
    ensures made { (T : Texts) (v : Other) (xs : List Bytes) → HoldsOther T value v → AreNamed T names.items xs → Holds T result (at (position_of position) (constant_path v top xs)) }
{
    let depth = value.depth;
    let kind = Collection::ConstantPath(value.node, top, names);
    grown(position, Kind::Collection(kind), depth)
}

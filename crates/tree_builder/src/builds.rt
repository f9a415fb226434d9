//! Trees that stand for more than one node.
ghost use Rattle.std.specs.Prelude.{◌≡◌, ◌≤◌, ◌&&◌, List, [], ◌∷◌, IfOk, true, false, codes};
ghost use Rattle.ruby_lexer.specs.Bytes.{same};
ghost use Rattle.ruby_lexer.specs.Pieces.{Toks};
ghost use Rattle.ruby_tree.specs.Names.{Texts, Bytes};
ghost use Rattle.ruby_tree.specs.Tree.{Goal, to_constant, Tree, Trees, Other, without, at, send};
ghost use Rattle.ruby_tree.specs.Rules.{Scope, position, position_with, word, next};
ghost use Rattle.ruby_tree.specs.Depth.{depth};
ghost use Rattle.ruby_tree.specs.Build.{Given, one, alone, or_empty, read_form, call_form, sent, bare_form, path_with, symbol_block, rescued, texts_at, symbols_at, binary, conjunction, disjunction};
ghost use Rattle.ruby_tree.specs.SourcePositions.{position_of};
ghost use Rattle.tree_builder.specs.Subtrees.{is_path, IsNamed, AreNamed, IsTarget, Holds, HoldsAll, HoldsOther};
ghost use Rattle.ruby_tree.specs.declared.node.Node.TheViews.{out-Node};

use super::kept::too_deep;
use super::{
    ElseSubtree, MAX_DEPTH, ParamSubtrees, RescueSubtrees, Subtree, Subtrees, bare_raise, body,
    both, constant_path, either, global, instance, local, rescue, rescue_sequence, safe_send, send,
    statements, symbol, text,
};
use bs_outside::{Bytes, NoMemory};
use ruby_tree::{Collection, Kind, Name, Node, SourcePosition, Target};
use std::alloc::Global;

// The position of a node that stands for no token.
const NOWHERE: SourcePosition = SourcePosition {
    first: 0,
    line: 0,
    place: 0,
};

/// A statement alone, as the statements of a block form.
pub fn alone(alloc: Global, here: SourcePosition, statement: Subtree) -> Result<Subtree, NoMemory>
    ensures made { (T : Texts) (w : Toks) (t : Tree) → position_of here ≡ position w → Holds T statement t → IfOk result (λ part. Holds T part (alone w t)) }
{
    let parts = Subtrees::one(alloc, statement)?;
    Ok(statements(here, parts))
}

/// A part that may be missing, as statements.
pub fn or_empty(alloc: Global, part: ElseSubtree) -> Subtree
    ensures made { (T : Texts) (o : Other) → HoldsOther T part o → Holds T result (or_empty o) }
{
    match part.into_part() {
        Some(part) => part,
        None => statements(NOWHERE, Subtrees::new(alloc)),
    }
}

/// What a target reads.
pub fn read_form(alloc: Global, here: SourcePosition, target: Target) -> Result<Subtree, NoMemory>
    ensures made { (T : Texts) (g : Goal) → IsTarget T target g → IfOk result (λ part. Holds T part (at (position_of here) (read_form g))) }
{
    match target {
        Target::Local(name) => Ok(local(here, name)),
        Target::Instance(name) => Ok(instance(here, name)),
        Target::Global(name) => Ok(global(here, name)),
        Target::Constant(name) => constant(alloc, here, name),
    }
}

// A constant by its name alone.
fn constant(alloc: Global, here: SourcePosition, name: Name) -> Result<Subtree, NoMemory>
    ensures { (T : Texts) (x : Bytes) → IsNamed T name x → IfOk result (λ part. Holds T part (at (position_of here) (read_form (to_constant x)))) }
{
    let names = one_name(alloc, name)?;
    Ok(constant_path(here, ElseSubtree::none(), false, names))
}

fn one_name(alloc: Global, name: Name) -> Result<Vec<Name>, NoMemory>
    ensures { (T : Texts) (x : Bytes) → IsNamed T name x → IfOk result (λ names. AreNamed T names.items (x ∷ [])) }
{
    let mut names = Vec::new(alloc);
    names.push(name)?;
    Ok(names)
}

/// `a.m` with these parts, or `a&.m` where it is safe.
#[allow(clippy::too_many_arguments)]
pub fn call_form(
    alloc: Global,
    here: SourcePosition,
    safe: bool,
    receiver: Subtree,
    arguments: Subtrees,
    spread: Vec<u64>,
    value: ElseSubtree,
    name: Name,
    block: ElseSubtree,
) -> Result<Subtree, NoMemory>
    ensures made { (T : Texts) (a : Tree) (g : Given) (m : Bytes) (b : Other) → Holds T receiver a → HoldsAll T arguments g.trees → spread.items ≡ g.spread → HoldsOther T value g.value → IsNamed T name m → HoldsOther T block b → IfOk result (λ part. Holds T part (at (position_of here) (call_form safe a g m b))) }
{
    if safe {
        return safe_send(alloc, here, receiver, arguments, spread, value, name, block);
    }
    let receiver = ElseSubtree::some(alloc, receiver)?;
    Ok(send(here, receiver, arguments, spread, value, name, false, block))
}

/// An operator is sent.
pub fn sent(
    alloc: Global,
    here: SourcePosition,
    receiver: Subtree,
    name: Name,
    arguments: Subtrees,
) -> Result<Subtree, NoMemory>
    ensures made { (T : Texts) (a : Tree) (f : Bytes) (ts : Trees) → Holds T receiver a → IsNamed T name f → HoldsAll T arguments ts → IfOk result (λ part. Holds T part (sent (position_of here) a f ts)) }
{
    let receiver = ElseSubtree::some(alloc, receiver)?;
    Ok(send_with(alloc, here, receiver, arguments, name, false))
}

// A call without a block value, a block or a spread argument.
fn send_with(
    alloc: Global,
    here: SourcePosition,
    receiver: ElseSubtree,
    arguments: Subtrees,
    name: Name,
    alone: bool,
) -> Subtree
    ensures { (T : Texts) (a : Other) (ts : Trees) (m : Bytes) → HoldsOther T receiver a → HoldsAll T arguments ts → IsNamed T name m → Holds T result (at (position_of here) (send a ts [] without m alone without)) }
{
    let spread = Vec::new(alloc);
    let value = ElseSubtree::none();
    let block = ElseSubtree::none();
    send(here, receiver, arguments, spread, value, name, alone, block)
}

/// A name alone: a call of it, or `raise` in a rescue clause.
pub fn bare_form(
    alloc: Global,
    here: SourcePosition,
    in_clause: bool,
    text: &[u8],
    name: Name,
) -> Subtree
    ensures made { (T : Texts) (s : Scope) → s.clause ≡ in_clause → IsNamed T name text.now → Holds T result (at (position_of here) (bare_form s text.now)) }
{
    if raises(in_clause, text) {
        return bare_raise(here);
    }
    send_with(
        alloc,
        here,
        ElseSubtree::none(),
        Subtrees::new(alloc),
        name,
        true,
    )
}

// Whether a name is that of the exception of a rescue clause again.
fn raises(in_clause: bool, text: &[u8]) -> bool
    ensures { result ≡ (in_clause && same text.now (codes "raise")) }
{
    in_clause && text == b"raise".as_slice()
}

/// `a::x`, where a path goes on.
pub fn path_with(
    alloc: Global,
    here: SourcePosition,
    path: Subtree,
    name: Name,
) -> Result<Subtree, NoMemory>
    ensures made { (T : Texts) (w : Toks) (a : Tree) (x : Bytes) → position_of here ≡ position w → Holds T path a → IsNamed T name x → IfOk result (λ part. Holds T part (path_with w a x)) }
{
    if path.depth > MAX_DEPTH {
        return Ok(too_deep(here));
    }
    if is_path(&path.node) {
        return longer_path(path, name);
    }
    let value = ElseSubtree::some(alloc, path)?;
    let names = one_name(alloc, name)?;
    Ok(constant_path(here, value, false, names))
}

/// `&:m`: the block `{ |x| x.m }`. The positions are those of the block and of the call in it, and the names are `x` and `m`.
pub fn symbol_block(
    alloc: Global,
    here: SourcePosition,
    call: SourcePosition,
    variable: Name,
    name: Name,
) -> Result<Subtree, NoMemory>
    ensures made { (T : Texts) (w : Toks) (m : Bytes) → position_of here ≡ position w → position_of call ≡ position_with w (next w) → IsNamed T variable (codes "x") → IsNamed T name m → IfOk result (λ part. Holds T part (symbol_block w m)) }
{
    let mut params = ParamSubtrees::new(alloc);
    params.push_required(variable)?;
    let receiver = ElseSubtree::some(alloc, local(here, variable))?;
    let sent = send_with(alloc, call, receiver, Subtrees::new(alloc), name, false);
    let code = alone(alloc, here, sent)?;
    body(alloc, here, params, code)
}

/// `a rescue b`. The positions are those of the whole, of the `rescue`, and of what follows it.
pub fn rescued(
    alloc: Global,
    here: SourcePosition,
    clause: SourcePosition,
    behind: SourcePosition,
    tried: Subtree,
    saved: Subtree,
) -> Result<Subtree, NoMemory>
    ensures made { (T : Texts) (w v : Toks) (a b : Tree) → position_of here ≡ position w → position_of clause ≡ position v → position_of behind ≡ position (next v) → Holds T tried a → Holds T saved b → IfOk result (λ part. Holds T part (rescued w v a b)) }
{
    let tried = alone(alloc, here, tried)?;
    let saved = alone(alloc, behind, saved)?;
    let mut clauses = RescueSubtrees::new(alloc);
    clauses.push(Subtrees::new(alloc), None, saved)?;
    let clauses = rescue_sequence(clause, clauses);
    rescue(alloc, here, tried, ElseSubtree::none(), clauses)
}

/// Texts, as the elements of a list of words.
pub fn texts_at(alloc: Global, here: SourcePosition, texts: &[Bytes]) -> Result<Subtrees, NoMemory>
    ensures made { (T : Texts) → IfOk result (λ parts. HoldsAll T parts (texts_at (position_of here) texts.now)) }
{
    let mut parts = Subtrees::new(alloc);
    for bytes in texts {
        let copy = Bytes::new(alloc, bytes.as_slice())?;
        parts.push(text(here, copy))?;
    }
    Ok(parts)
}

/// Symbols, as the elements of a list of words.
pub fn symbols_at(alloc: Global, here: SourcePosition, names: &[Name]) -> Result<Subtrees, NoMemory>
    ensures made { (T : Texts) (fs : List Bytes) → AreNamed T names.now fs → IfOk result (λ parts. HoldsAll T parts (symbols_at (position_of here) fs)) }
{
    let mut parts = Subtrees::new(alloc);
    for name in names {
        parts.push(symbol(here, *name))?;
    }
    Ok(parts)
}

/// Two operands, and the operator between them, which is sent.
pub fn binary(
    alloc: Global,
    here: SourcePosition,
    left: Subtree,
    operator: Name,
    right: Subtree,
) -> Result<Subtree, NoMemory>
    ensures made { (T : Texts) (source : Bytes) (w v : Toks) (a b : Tree) → position_of here ≡ position_with w v → Holds T left a → IsNamed T operator (word source v) → Holds T right b → IfOk result (λ part. Holds T part (binary source w v a b)) }
{
    let arguments = Subtrees::one(alloc, right)?;
    sent(alloc, here, left, operator, arguments)
}

/// `a && b`
pub fn conjunction(
    alloc: Global,
    here: SourcePosition,
    left: Subtree,
    right: Subtree,
) -> Result<Subtree, NoMemory>
    ensures made { (T : Texts) (w v : Toks) (a b : Tree) → position_of here ≡ position w → Holds T left a → Holds T right b → IfOk result (λ part. Holds T part (conjunction w v a b)) }
{
    both(alloc, here, left, right)
}

/// `a || b`
pub fn disjunction(
    alloc: Global,
    here: SourcePosition,
    left: Subtree,
    right: Subtree,
) -> Result<Subtree, NoMemory>
    ensures made { (T : Texts) (w v : Toks) (a b : Tree) → position_of here ≡ position w → Holds T left a → Holds T right b → IfOk result (λ part. Holds T part (disjunction w v a b)) }
{
    either(alloc, here, left, right)
}

// Whether it is a path of constants.
fn is_path(node: &Node) -> bool
    ensures { result ≡ is_path (out-Node node.now).kind }
{
    matches!(
        node.kind,
        Kind::Collection(Collection::ConstantPath(_, _, _))
    )
}

// A path with one more name.
fn longer_path(path: Subtree, name: Name) -> Result<Subtree, NoMemory>
    requires { is_path (out-Node path.node).kind ≡ true }
    ensures { (T : Texts) (w : Toks) (a : Tree) (x : Bytes) → Holds T path a → depth a ≤ 200 → IsNamed T name x → IfOk result (λ part. Holds T part (path_with w a x)) }
{
    let mut path = path;
    match &mut path.node.kind {
        Kind::Collection(Collection::ConstantPath(_, _, names)) => names.push(name)?,
        _ => unreachable!(),
    }
    Ok(path)
}

//! Attributes and elements that are set.
ghost use Rattle.std.specs.Prelude.{◌≡◌, ◌++◌, Bool, codes};
ghost use Rattle.ruby_lexer.specs.Bytes.{Bytes};
ghost use Rattle.ruby_lexer.specs.Pieces.{Toks, seen_all};
ghost use Rattle.ruby_tree.specs.Tree.{Tree, at, operate_attribute, operate_index};
ghost use Rattle.ruby_tree.specs.Rules.{Scope, word, but_last, line_at};
ghost use Rattle.ruby_tree.specs.SourcePositions.{position_of};
ghost use Rattle.token_lookahead.specs.Lookaheads.{do_owner_of};
ghost use Rattle.tree_builder.specs.Subtrees.{IsNamed, Holds};
ghost use Rattle.reference_parser.specs.Answers.{taken};
ghost use Rattle.reference_parser.specs.ReadOperands.{attribute, element};
ghost use Rattle.reference_parser.specs.ReadStatements.{start_by, attribute_form, element_form};
ghost use Rattle.parse_state.specs.Standing.{At};
ghost use Rattle.parse_state.specs.Gives.{Gives, Reads};

use crate::values::{operator_name, value};
use parse_state::{Context, Failure, Nested, Parser};
use ruby_tree::{Name, SourcePosition};
use token_lookahead::{DoBlockOwner, Lookahead};
use tree_builder::{
    Subtree, and_attribute, and_index, assign_attribute, assign_index, operate_attribute,
    operate_index, or_attribute, or_index,
};

/// An attribute that is set by the token here.
///
/// # Errors
///
/// Where the grammar derives none here, where symbols nest too deep, and where there is not memory enough.
pub fn set_attribute<N: Nested>(
    context: Context<'_>,
    nested: &N,
    parser: &mut Parser<'_>,
    do_owner: DoBlockOwner,
    here: SourcePosition,
    receiver: Subtree,
    name: Name,
) -> Result<Subtree, Failure>
    requires { N.IsReady nested.now }
    ensures reads { (c : Bool) (o : Toks) (a : Tree) (m : Bytes) → Holds parser.old.symbols receiver a → IsNamed parser.old.symbols name m → Reads Holds parser.old parser.new result (λ w s. start_by context.entry.source.now (N.readers nested.now context.entry.source.now) c (do_owner_of do_owner) o (attribute a (position_of here) m) w s) }
{
    let operator = parser.lookahead(context);
    parser.bump();
    let value = value(context, nested, parser, do_owner)?;
    attribute_form(context, parser, here, operator, receiver, name, value)
}

/// An element that is set by the token here.
///
/// # Errors
///
/// Where the grammar derives none here, where symbols nest too deep, and where there is not memory enough.
pub fn set_element<N: Nested>(
    context: Context<'_>,
    nested: &N,
    parser: &mut Parser<'_>,
    do_owner: DoBlockOwner,
    here: SourcePosition,
    receiver: Subtree,
    index: Subtree,
) -> Result<Subtree, Failure>
    requires { N.IsReady nested.now }
    ensures reads { (c : Bool) (o : Toks) (a i : Tree) → Holds parser.old.symbols receiver a → Holds parser.old.symbols index i → Reads Holds parser.old parser.new result (λ w s. start_by context.entry.source.now (N.readers nested.now context.entry.source.now) c (do_owner_of do_owner) o (element a (position_of here) i) w s) }
{
    let operator = parser.lookahead(context);
    parser.bump();
    let value = value(context, nested, parser, do_owner)?;
    element_form(context, parser, here, operator, receiver, index, value)
}

// What the operator, which is the first token of its lookahead, makes of an attribute and a value. The whole stands at the position.
fn attribute_form(
    context: Context<'_>,
    parser: &mut Parser<'_>,
    here: SourcePosition,
    operator: Lookahead<'_>,
    receiver: Subtree,
    name: Name,
    value: Subtree,
) -> Result<Subtree, Failure>
    ensures gives { (q : Toks) (a v : Tree) (m : Bytes) → operator.entry.source.now ≡ context.entry.source.now → seen_all operator.entry.rest.now ≡ q → Holds parser.old.symbols receiver a → IsNamed parser.old.symbols name m → Holds parser.old.symbols value v → (w : Toks) (s : Scope) → At parser.old w s → Gives Holds parser.old parser.new result (taken (at (position_of here) (attribute_form context.entry.source.now a m q v)) w s) }
{
    let alloc = context.alloc;
    let setter = setter_of(context, parser, name)?;
    if operator.is_mark("=") {
        return Ok(assign_attribute(alloc, here, receiver, value, setter)?);
    }
    if operator.is_mark("||=") {
        return Ok(or_attribute(alloc, here, receiver, name, value, setter)?);
    }
    if operator.is_mark("&&=") {
        return Ok(and_attribute(alloc, here, receiver, name, value, setter)?);
    }
    send_attribute(
        context, parser, here, operator, receiver, name, value, setter,
    )
}

// The name that sets an attribute of this name.
fn setter_of(context: Context<'_>, parser: &mut Parser<'_>, name: Name) -> Result<Name, Failure>
    ensures gives { (m : Bytes) → IsNamed parser.old.symbols name m → (w : Toks) (s : Scope) → At parser.old w s → Gives IsNamed parser.old parser.new result (taken (m ++ codes "=") w s) }
{
    let text = Vec::from_slice(context.alloc, parser.symbols.text(name))?;
    parser.setter(context, &text)
}

// `a.m op= v`
#[allow(clippy::too_many_arguments)]
fn send_attribute(
    context: Context<'_>,
    parser: &mut Parser<'_>,
    here: SourcePosition,
    operator: Lookahead<'_>,
    receiver: Subtree,
    name: Name,
    value: Subtree,
    setter: Name,
) -> Result<Subtree, Failure>
    ensures gives { (q : Toks) (a v : Tree) (m n : Bytes) → operator.entry.source.now ≡ context.entry.source.now → seen_all operator.entry.rest.now ≡ q → Holds parser.old.symbols receiver a → IsNamed parser.old.symbols name m → Holds parser.old.symbols value v → IsNamed parser.old.symbols setter n → (w : Toks) (s : Scope) → At parser.old w s → Gives Holds parser.old parser.new result (taken (at (position_of here) (operate_attribute a m v (but_last (word context.entry.source.now q)) n (line_at q))) w s) }
{
    let alloc = context.alloc;
    let line = operator.line_at();
    let sent = operator_name(context, parser, operator)?;
    Ok(operate_attribute(alloc, here, receiver, name, value, sent, setter, line)?)
}

// What the operator, which is the first token of its lookahead, makes of an element and a value. The whole stands at the position.
fn element_form(
    context: Context<'_>,
    parser: &mut Parser<'_>,
    here: SourcePosition,
    operator: Lookahead<'_>,
    receiver: Subtree,
    index: Subtree,
    value: Subtree,
) -> Result<Subtree, Failure>
    ensures gives { (q : Toks) (a i v : Tree) → operator.entry.source.now ≡ context.entry.source.now → seen_all operator.entry.rest.now ≡ q → Holds parser.old.symbols receiver a → Holds parser.old.symbols index i → Holds parser.old.symbols value v → (w : Toks) (s : Scope) → At parser.old w s → Gives Holds parser.old parser.new result (taken (at (position_of here) (element_form context.entry.source.now a i q v)) w s) }
{
    let alloc = context.alloc;
    if operator.is_mark("=") {
        return Ok(assign_index(alloc, here, receiver, index, value)?);
    }
    if operator.is_mark("||=") {
        return Ok(or_index(alloc, here, receiver, index, value)?);
    }
    if operator.is_mark("&&=") {
        return Ok(and_index(alloc, here, receiver, index, value)?);
    }
    send_element(context, parser, here, operator, receiver, index, value)
}

// `a[i] op= v`
fn send_element(
    context: Context<'_>,
    parser: &mut Parser<'_>,
    here: SourcePosition,
    operator: Lookahead<'_>,
    receiver: Subtree,
    index: Subtree,
    value: Subtree,
) -> Result<Subtree, Failure>
    ensures gives { (q : Toks) (a i v : Tree) → operator.entry.source.now ≡ context.entry.source.now → seen_all operator.entry.rest.now ≡ q → Holds parser.old.symbols receiver a → Holds parser.old.symbols index i → Holds parser.old.symbols value v → (w : Toks) (s : Scope) → At parser.old w s → Gives Holds parser.old parser.new result (taken (at (position_of here) (operate_index a i v (but_last (word context.entry.source.now q)) (line_at q))) w s) }
{
    let alloc = context.alloc;
    let line = operator.line_at();
    let sent = operator_name(context, parser, operator)?;
    Ok(operate_index(alloc, here, receiver, index, value, sent, line)?)
}

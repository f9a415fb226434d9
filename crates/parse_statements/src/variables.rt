//! Variables and constants that are set.
ghost use Rattle.std.specs.Prelude.{◌≡◌, IfOk, Some, None};
ghost use Rattle.ruby_lexer.specs.Bytes.{Bytes};
ghost use Rattle.ruby_lexer.specs.Pieces.{Toks, seen_all};
ghost use Rattle.ruby_tree.specs.Names.{Texts};
ghost use Rattle.ruby_tree.specs.Tree.{Goal, Tree, at, assign, both, either};
ghost use Rattle.ruby_tree.specs.Rules.{Scope, position, position_with, word, goal_at, but_last};
ghost use Rattle.ruby_tree.specs.Build.{one, sent, read_form};
ghost use Rattle.ruby_tree.specs.SourcePositions.{position_of};
ghost use Rattle.token_lookahead.specs.Lookaheads.{do_owner_of, goal_with};
ghost use Rattle.tree_builder.specs.Subtrees.{IsNamed, IsTarget, Holds};
ghost use Rattle.reference_parser.specs.Answers.{taken};
ghost use Rattle.reference_parser.specs.ReadStatements.{set_by, variable_form};
ghost use Rattle.parse_state.specs.Standing.{At};
ghost use Rattle.parse_state.specs.Gives.{Gives, Reads};

use crate::values::{operator_name, value};
use bs_outside::NoMemory;
use parse_parts::{declare_if, target};
use parse_state::{Context, Failure, Nested, Parser, position_with};
use ruby_tree::{Name, SourcePosition, Target};
use std::alloc::Global;
use token_lookahead::{DoBlockOwner, Lookahead, Settable};
use tree_builder::{Subtree, Subtrees, assign, both, either, read_form, sent};

/// A variable or a constant that is set, by the second token.
///
/// # Errors
///
/// Where the grammar derives none here, where symbols nest too deep, and where there is not memory enough.
pub fn variable<N: Nested>(
    context: Context<'_>,
    nested: &N,
    parser: &mut Parser<'_>,
    do_owner: DoBlockOwner,
) -> Result<Subtree, Failure>
    requires { N.IsReady nested.now }
    ensures reads { Reads Holds parser.old parser.new result (λ w s. set_by context.entry.source.now (N.readers nested.now context.entry.source.now) (do_owner_of do_owner) w s (goal_at context.entry.source.now w)) }
{
    match parser.lookahead(context).goal() {
        Some(settable) => set_variable(context, nested, parser, do_owner, settable),
        None => set_constant(context, nested, parser, do_owner),
    }
}

// A variable that is set by the second token. One that is a local by its form is a local from here on, in its own value too.
fn set_variable<N: Nested>(
    context: Context<'_>,
    nested: &N,
    parser: &mut Parser<'_>,
    do_owner: DoBlockOwner,
    settable: Settable,
) -> Result<Subtree, Failure>
    requires { N.IsReady nested.now }
    ensures reads { Reads Holds parser.old parser.new result (λ w s. set_by context.entry.source.now (N.readers nested.now context.entry.source.now) (do_owner_of do_owner) w s (Some (goal_with (word context.entry.source.now w) settable))) }
{
    let here = parser.lookahead(context).position();
    let target = target(context, parser, settable)?;
    declare_if(context, parser, settable)?;
    parser.bump();
    let operator = parser.lookahead(context);
    parser.bump();
    let value = value(context, nested, parser, do_owner)?;
    variable_form(context, parser, here, operator, target, value)
}

// A constant that is set by the second token.
fn set_constant<N: Nested>(
    context: Context<'_>,
    nested: &N,
    parser: &mut Parser<'_>,
    do_owner: DoBlockOwner,
) -> Result<Subtree, Failure>
    requires { N.IsReady nested.now }
    ensures reads { Reads Holds parser.old parser.new result (λ w s. set_by context.entry.source.now (N.readers nested.now context.entry.source.now) (do_owner_of do_owner) w s None) }
{
    let here = parser.lookahead(context).position();
    let name = parser.word_name(context)?;
    parser.bump();
    parser.bump();
    let value = value(context, nested, parser, do_owner)?;
    Ok(assign(context.alloc, here, value, Target::Constant(name))?)
}

// What the operator, which is the first token of its lookahead, makes of a variable and a value. The variable stands at the position.
fn variable_form(
    context: Context<'_>,
    parser: &mut Parser<'_>,
    here: SourcePosition,
    operator: Lookahead<'_>,
    target: Target,
    value: Subtree,
) -> Result<Subtree, Failure>
    ensures gives { (o q : Toks) (g : Goal) (v : Tree) → position_of here ≡ position o → operator.entry.source.now ≡ context.entry.source.now → seen_all operator.entry.rest.now ≡ q → IsTarget parser.old.symbols target g → Holds parser.old.symbols value v → (w : Toks) (s : Scope) → At parser.old w s → Gives Holds parser.old parser.new result (taken (at (position o) (variable_form context.entry.source.now g o q v)) w s) }
{
    let alloc = context.alloc;
    if operator.is_mark("=") {
        return Ok(assign(alloc, here, value, target)?);
    }
    if operator.is_mark("||=") {
        return Ok(assign_or(alloc, here, target, value)?);
    }
    if operator.is_mark("&&=") {
        return Ok(assign_and(alloc, here, target, value)?);
    }
    operate(context, parser, here, operator, target, value)
}

// `x ||= v`
fn assign_or(
    alloc: Global,
    here: SourcePosition,
    target: Target,
    value: Subtree,
) -> Result<Subtree, NoMemory>
    ensures made { (T : Texts) (g : Goal) (v : Tree) → IsTarget T target g → Holds T value v → IfOk result (λ part. Holds T part (at (position_of here) (either (at (position_of here) (read_form g)) (at (position_of here) (assign v g))))) }
{
    let reading = read_form(alloc, here, target)?;
    let setting = assign(alloc, here, value, target)?;
    either(alloc, here, reading, setting)
}

// `x &&= v`
fn assign_and(
    alloc: Global,
    here: SourcePosition,
    target: Target,
    value: Subtree,
) -> Result<Subtree, NoMemory>
    ensures made { (T : Texts) (g : Goal) (v : Tree) → IsTarget T target g → Holds T value v → IfOk result (λ part. Holds T part (at (position_of here) (both (at (position_of here) (read_form g)) (at (position_of here) (assign v g))))) }
{
    let reading = read_form(alloc, here, target)?;
    let setting = assign(alloc, here, value, target)?;
    both(alloc, here, reading, setting)
}

// `x op= v`
fn operate(
    context: Context<'_>,
    parser: &mut Parser<'_>,
    here: SourcePosition,
    operator: Lookahead<'_>,
    target: Target,
    value: Subtree,
) -> Result<Subtree, Failure>
    ensures gives { (o q : Toks) (g : Goal) (v : Tree) → position_of here ≡ position o → operator.entry.source.now ≡ context.entry.source.now → seen_all operator.entry.rest.now ≡ q → IsTarget parser.old.symbols target g → Holds parser.old.symbols value v → (w : Toks) (s : Scope) → At parser.old w s → Gives Holds parser.old parser.new result (taken (at (position o) (assign (sent (position_with o q) (at (position o) (read_form g)) (but_last (word context.entry.source.now q)) (one v)) g)) w s) }
{
    let name = operator_name(context, parser, operator)?;
    let position = position_with(here, operator);
    Ok(operated(context.alloc, here, position, name, target, value)?)
}

// `x op= v`: the positions are those of the variable and of the operator that is sent.
fn operated(
    alloc: Global,
    here: SourcePosition,
    call: SourcePosition,
    operator: Name,
    target: Target,
    value: Subtree,
) -> Result<Subtree, NoMemory>
    ensures made { (T : Texts) (g : Goal) (v : Tree) (f : Bytes) → IsTarget T target g → Holds T value v → IsNamed T operator f → IfOk result (λ part. Holds T part (at (position_of here) (assign (sent (position_of call) (at (position_of here) (read_form g)) f (one v)) g))) }
{
    let reading = read_form(alloc, here, target)?;
    let arguments = Subtrees::one(alloc, value)?;
    let made = sent(alloc, call, reading, operator, arguments)?;
    assign(alloc, here, made, target)
}

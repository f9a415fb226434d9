//! Forms that `end` closes: choices, loops, `begin` and `case`.
ghost use Rattle.std.specs.Prelude.{◌≡◌, true, false, IfOk};
ghost use Rattle.ruby_lexer.specs.Pieces.{Toks};
ghost use Rattle.ruby_tree.specs.Names.{Texts};
ghost use Rattle.ruby_tree.specs.Tree.{Tree, at, Other, Whens, without, with};
ghost use Rattle.ruby_tree.specs.Rules.{position};
ghost use Rattle.ruby_tree.specs.SourcePositions.{position_of};
ghost use Rattle.token_lookahead.specs.Lookaheads.{do_owner_of};
ghost use Rattle.tree_builder.specs.Subtrees.{Holds, HoldsOther, HoldsWhens};
ghost use Rattle.reference_parser.specs.Fronts.{skip_newlines};
ghost use Rattle.reference_parser.specs.ReadOperands.{choice, read_choice, read_loop, read_begin, read_whens, read_case};
ghost use Rattle.parse_operands.specs.Cases.{case_form, all_whens, lone_case, valued_case};
ghost use Rattle.parse_state.specs.Gives.{Reads};

use crate::behind::{position_here, whens_behind};
use crate::ends::ended;
use bs_outside::NoMemory;
use parse_parts::{body, else_part, when_list};
use parse_state::{Context, Failure, Nested, Parser};
use ruby_tree::SourcePosition;
use std::alloc::Global;
use token_lookahead::DoBlockOwner;
use tree_builder::{
    ElseSubtree, Subtree, WhenSubtrees, case_of, case_tests, if_else, or_empty, while_loop,
};

/// `if`, or `unless`.
pub fn choice<N: Nested>(
    context: Context<'_>,
    nested: &N,
    parser: &mut Parser<'_>,
    do_owner: DoBlockOwner,
    is_if: bool,
) -> Result<Subtree, Failure>
    requires { N.IsReady nested.now }
    ensures reads { Reads Holds parser.old parser.new result (read_choice context.entry.source.now (N.readers nested.now context.entry.source.now) is_if (do_owner_of do_owner)) }
{
    let here = position_here(context, parser);
    let within = do_owner.within();
    parser.bump();
    let condition = nested.expression(context, parser, within)?;
    parser.skip_then(context)?;
    let chosen = nested.statements(context, parser, within)?;
    let other = nested.else_branches(context, parser, within)?;
    let whole = choice_of(context.alloc, here, is_if, condition, chosen, other)?;
    ended(context, parser, whole)
}

// `unless` has its parts swapped.
fn choice_of(
    alloc: Global,
    here: SourcePosition,
    is_if: bool,
    condition: Subtree,
    chosen: Subtree,
    other: ElseSubtree,
) -> Result<Subtree, NoMemory>
    ensures made { (T : Texts) (c t : Tree) (e : Other) → Holds T condition c → Holds T chosen t → HoldsOther T other e → IfOk result (λ part. Holds T part (at (position_of here) (choice is_if c t e))) }
{
    if is_if {
        return if_else(alloc, here, condition, chosen, other);
    }
    let other = or_empty(alloc, other);
    let behind = ElseSubtree::some(alloc, chosen)?;
    if_else(alloc, here, condition, other, behind)
}

/// `while`, or `until`, which ends where the condition holds.
pub fn looped<N: Nested>(
    context: Context<'_>,
    nested: &N,
    parser: &mut Parser<'_>,
    do_owner: DoBlockOwner,
    until: bool,
) -> Result<Subtree, Failure>
    requires { N.IsReady nested.now }
    ensures reads { Reads Holds parser.old parser.new result (read_loop context.entry.source.now (N.readers nested.now context.entry.source.now) until (do_owner_of do_owner)) }
{
    let here = position_here(context, parser);
    let within = do_owner.within();
    parser.bump();
    let condition = nested.expression(context, parser, DoBlockOwner::Loops)?;
    parser.skip_loop_start(context)?;
    let code = nested.statements(context, parser, within)?;
    let whole = while_loop(context.alloc, here, code, condition, until, false)?;
    ended(context, parser, whole)
}

/// `begin`
pub fn begun<N: Nested>(
    context: Context<'_>,
    nested: &N,
    parser: &mut Parser<'_>,
    do_owner: DoBlockOwner,
) -> Result<Subtree, Failure>
    requires { N.IsReady nested.now }
    ensures reads { Reads Holds parser.old parser.new result (read_begin context.entry.source.now (N.readers nested.now context.entry.source.now) (do_owner_of do_owner)) }
{
    let here = position_here(context, parser);
    let within = do_owner.within();
    parser.bump();
    let part = body(context, nested, parser, within, here)?;
    ended(context, parser, part)
}

/// `case`
pub fn case<N: Nested>(
    context: Context<'_>,
    nested: &N,
    parser: &mut Parser<'_>,
    do_owner: DoBlockOwner,
) -> Result<Subtree, Failure>
    requires { N.IsReady nested.now }
    ensures reads { Reads Holds parser.old parser.new result (read_case context.entry.source.now (N.readers nested.now context.entry.source.now) (do_owner_of do_owner)) }
{
    if whens_behind(context, parser) {
        return lone_case(context, nested, parser, do_owner);
    }
    valued_case(context, nested, parser, do_owner)
}

// A `case` without a value.
fn lone_case<N: Nested>(
    context: Context<'_>,
    nested: &N,
    parser: &mut Parser<'_>,
    do_owner: DoBlockOwner,
) -> Result<Subtree, Failure>
    requires { N.IsReady nested.now }
    ensures reads { Reads Holds parser.old parser.new result (lone_case context.entry.source.now (N.readers nested.now context.entry.source.now) (do_owner_of do_owner)) }
{
    let here = position_here(context, parser);
    parser.bump();
    parser.skip_newlines(context);
    let value = ElseSubtree::none();
    whens(context, nested, parser, do_owner, here, value)
}

// A `case` with a value.
fn valued_case<N: Nested>(
    context: Context<'_>,
    nested: &N,
    parser: &mut Parser<'_>,
    do_owner: DoBlockOwner,
) -> Result<Subtree, Failure>
    requires { N.IsReady nested.now }
    ensures reads { Reads Holds parser.old parser.new result (valued_case context.entry.source.now (N.readers nested.now context.entry.source.now) (do_owner_of do_owner)) }
{
    let here = position_here(context, parser);
    let within = do_owner.within();
    parser.bump();
    let value = nested.expression(context, parser, within)?;
    let given = ElseSubtree::some(context.alloc, value)?;
    parser.skip_newlines(context);
    whens(context, nested, parser, do_owner, here, given)
}

// The parts of a `case` that begins at a position.
fn whens<N: Nested>(
    context: Context<'_>,
    nested: &N,
    parser: &mut Parser<'_>,
    do_owner: DoBlockOwner,
    here: SourcePosition,
    value: ElseSubtree,
) -> Result<Subtree, Failure>
    requires { N.IsReady nested.now }
    ensures reads { (o : Toks) (v : Other) → position_of here ≡ position o → HoldsOther parser.old.symbols value v → Reads Holds parser.old parser.new result (read_whens context.entry.source.now (N.readers nested.now context.entry.source.now) (case_form v) (do_owner_of do_owner) o) }
{
    if parser.is_word(context, "when") {
        return all_whens(context, nested, parser, do_owner, here, value);
    }
    Err(Failure::Syntax)
}

fn all_whens<N: Nested>(
    context: Context<'_>,
    nested: &N,
    parser: &mut Parser<'_>,
    do_owner: DoBlockOwner,
    here: SourcePosition,
    value: ElseSubtree,
) -> Result<Subtree, Failure>
    requires { N.IsReady nested.now }
    ensures reads { (o : Toks) (v : Other) → position_of here ≡ position o → HoldsOther parser.old.symbols value v → Reads Holds parser.old parser.new result (all_whens context.entry.source.now (N.readers nested.now context.entry.source.now) (case_form v) (do_owner_of do_owner) o) }
{
    let within = do_owner.within();
    let parts = when_list(context, nested, parser, within)?;
    let other = else_part(context, nested, parser, within)?;
    let whole = case_with(context.alloc, here, value, parts, other)?;
    ended(context, parser, whole)
}

fn case_with(
    alloc: Global,
    here: SourcePosition,
    value: ElseSubtree,
    parts: WhenSubtrees,
    other: ElseSubtree,
) -> Result<Subtree, NoMemory>
    ensures made { (T : Texts) (v : Other) (ws : Whens) (e : Other) → HoldsOther T value v → HoldsWhens T parts ws → HoldsOther T other e → IfOk result (λ part. Holds T part (at (position_of here) (case_form v ws e))) }
{
    match value.into_part() {
        Some(value) => case_of(alloc, here, value, parts, other),
        None => Ok(case_tests(here, parts, other)),
    }
}

//! Operands that begin with a mark.
ghost use Rattle.std.specs.Prelude.{◌≡◌, true, ◌∷◌, [], ℕ, ℤ, neg_ℤ, Some, length};
ghost use Rattle.ruby_lexer.specs.Pieces.{Toks};
ghost use Rattle.ruby_tree.specs.Tree.{at, integer};
ghost use Rattle.ruby_tree.specs.Rules.{Scope, next, position, front};
ghost use Rattle.token_lookahead.specs.Lookaheads.{do_owner_of};
ghost use Rattle.tree_builder.specs.Subtrees.{Holds};
ghost use Rattle.reference_parser.specs.Answers.{taken};
ghost use Rattle.reference_parser.specs.ReadItems.{Readers};
ghost use Rattle.reference_parser.specs.ReadOperands.{read_mark, read_list, read_hash, read_group, negative_by};
ghost use Rattle.parse_operands.specs.Literals.{full_list, full_hash, top_constant};
ghost use Rattle.parse_state.specs.Standing.{At};
ghost use Rattle.parse_state.specs.Gives.{Gives, Reads};

use crate::behind::{constant_behind, integer_behind, mark_behind, negative_here, position_here};
use crate::ends::{closed, leaf, one_name};
use parse_parts::{elements, pair_list};
use parse_state::{Context, Failure, Nested, Parser};
use token_lookahead::DoBlockOwner;
use tree_builder::{
    ElseSubtree, PairSubtrees, Subtree, Subtrees, array, constant_path, hash, integer,
};

/// What begins with a mark.
pub fn mark<N: Nested>(
    context: Context<'_>,
    nested: &N,
    parser: &mut Parser<'_>,
    do_owner: DoBlockOwner,
) -> Result<Subtree, Failure>
    requires { N.IsReady nested.now }
    ensures reads { Reads Holds parser.old parser.new result (read_mark context.entry.source.now (N.readers nested.now context.entry.source.now) (do_owner_of do_owner)) }
{
    if parser.is_mark(context, "[") {
        return list(context, nested, parser);
    }
    if parser.is_mark(context, "{") {
        return braces(context, nested, parser);
    }
    if parser.is_mark(context, "(") {
        return group(context, nested, parser);
    }
    if parser.is_mark(context, "::") {
        if constant_behind(context, parser) {
            return top_constant(context, parser);
        }
        return Err(Failure::Syntax);
    }
    if negative_here(context, parser) {
        return negative(context, parser);
    }
    Err(Failure::Syntax)
}

// Elements in brackets.
fn list<N: Nested>(
    context: Context<'_>,
    nested: &N,
    parser: &mut Parser<'_>,
) -> Result<Subtree, Failure>
    requires { N.IsReady nested.now }
    ensures reads { Reads Holds parser.old parser.new result (read_list context.entry.source.now (N.readers nested.now context.entry.source.now)) }
{
    if mark_behind(context, parser, "]") {
        let here = position_here(context, parser);
        let elements = Subtrees::new(context.alloc);
        parser.bump();
        return leaf(parser, array(here, elements, Vec::new(context.alloc)));
    }
    full_list(context, nested, parser)
}

fn full_list<N: Nested>(
    context: Context<'_>,
    nested: &N,
    parser: &mut Parser<'_>,
) -> Result<Subtree, Failure>
    requires { N.IsReady nested.now }
    ensures reads { Reads Holds parser.old parser.new result (full_list context.entry.source.now (N.readers nested.now context.entry.source.now)) }
{
    let here = position_here(context, parser);
    parser.bump();
    let given = elements(context, nested, parser)?;
    let whole = array(here, given.arguments, given.spread);
    closed(context, parser, "]", whole)
}

// Pairs in braces.
fn braces<N: Nested>(
    context: Context<'_>,
    nested: &N,
    parser: &mut Parser<'_>,
) -> Result<Subtree, Failure>
    requires { N.IsReady nested.now }
    ensures reads { Reads Holds parser.old parser.new result (read_hash context.entry.source.now (N.readers nested.now context.entry.source.now)) }
{
    if mark_behind(context, parser, "}") {
        let here = position_here(context, parser);
        parser.bump();
        return leaf(parser, hash(here, PairSubtrees::new(context.alloc)));
    }
    full_hash(context, nested, parser)
}

fn full_hash<N: Nested>(
    context: Context<'_>,
    nested: &N,
    parser: &mut Parser<'_>,
) -> Result<Subtree, Failure>
    requires { N.IsReady nested.now }
    ensures reads { Reads Holds parser.old parser.new result (full_hash context.entry.source.now (N.readers nested.now context.entry.source.now)) }
{
    let here = position_here(context, parser);
    parser.bump();
    let pairs = pair_list(context, nested, parser, DoBlockOwner::Own)?;
    closed(context, parser, "}", hash(here, pairs))
}

// Statements in brackets.
fn group<N: Nested>(
    context: Context<'_>,
    nested: &N,
    parser: &mut Parser<'_>,
) -> Result<Subtree, Failure>
    requires { N.IsReady nested.now }
    ensures reads { Reads Holds parser.old parser.new result (read_group context.entry.source.now (N.readers nested.now context.entry.source.now)) }
{
    parser.bump();
    let part = nested.statements(context, parser, DoBlockOwner::Own)?;
    parser.expect_mark(context, ")")?;
    Ok(part)
}

// A constant behind `::`.
fn top_constant(context: Context<'_>, parser: &mut Parser<'_>) -> Result<Subtree, Failure>
    ensures reads { Reads Holds parser.old parser.new result (top_constant context.entry.source.now) }
{
    let here = position_here(context, parser);
    parser.bump();
    let name = parser.word_name(context)?;
    let names = one_name(context.alloc, name)?;
    leaf(
        parser,
        constant_path(here, ElseSubtree::none(), true, names),
    )
}

// `-` directly before a whole number.
fn negative(context: Context<'_>, parser: &mut Parser<'_>) -> Result<Subtree, Failure>
    ensures reads { (Q : Readers) → Reads Holds parser.old parser.new result (λ w s. negative_by context.entry.source.now Q w s (front (next w))) }
{
    match integer_behind(context, parser) {
        Some(value) => negated(context, parser, value),
        None => Err(Failure::Syntax),
    }
}

// The least number of a token has no negation in a node. The lexer never makes it: whole numbers are written without a sign.
fn negated(context: Context<'_>, parser: &mut Parser<'_>, value: i64) -> Result<Subtree, Failure>
    ensures reads { Reads Holds parser.old parser.new result (λ w s. taken (at (position w) (integer (neg_ℤ value))) (next (next w)) s) }
{
    let here = position_here(context, parser);
    match value.checked_neg() {
        Some(opposite) => {
            parser.bump();
            leaf(parser, integer(here, opposite))
        }
        None => Err(Failure::Memory),
    }
}

//! Tests, and what `and` and `or` join.
ghost use Rattle.std.specs.Prelude.{◌≡◌, ◌<◌, ◌≤◌, ◌-◌, length, Ok, Some, IfOk};
ghost use Rattle.ruby_lexer.specs.Pieces.{Toks};
ghost use Rattle.ruby_tree.specs.Names.{Texts};
ghost use Rattle.ruby_tree.specs.Tree.{Tree};
ghost use Rattle.ruby_tree.specs.Rules.{Scope, position};
ghost use Rattle.ruby_tree.specs.SourcePositions.{position_of};
ghost use Rattle.token_lookahead.specs.Lookaheads.{do_owner_of};
ghost use Rattle.tree_builder.specs.Subtrees.{Holds};
ghost use Rattle.parse_state.specs.Standing.{At};
ghost use Rattle.parse_state.specs.Gives.{Reads, ReadsWithin};
ghost use Rattle.reference_parser.specs.ReadStatements.{tests, read_test, read_expr};
ghost use Rattle.parse_statements.specs.Statements.{joining_at, joined_by, one_joining};

use crate::arguments::assigned_value;
use bs_outside::NoMemory;
use parse_state::{Context, Failure, Nested, Operators, Parser};
use ruby_tree::SourcePosition;
use std::alloc::Global;
use token_lookahead::DoBlockOwner;
use tree_builder::{Subtree, conjunction, disjunction, negated};

/// What joins two tests.
#[derive(Clone, Copy, Debug, PartialEq, Eq, Drop)]
pub enum LogicalOperator {
    /// `a and b`
    And,
    /// `a or b`
    Or,
}

/// A test: an argument or a command, or one behind `not`.
///
/// # Errors
///
/// Where the grammar derives none here, where symbols nest too deep, and where there is not memory enough.
pub fn test<N: Operators>(
    context: Context<'_>,
    nested: &N,
    parser: &mut Parser<'_>,
    do_owner: DoBlockOwner,
) -> Result<Subtree, Failure>
    requires { N.IsReady nested.now }
    ensures reads { Reads Holds parser.old parser.new result (read_test context.entry.source.now (N.readers nested.now context.entry.source.now) (do_owner_of do_owner)) }
{
    if parser.is_word(context, "not") {
        let here = parser.lookahead(context).position();
        parser.bump();
        let part = nested.test(context, parser, do_owner)?;
        return Ok(negated(context.alloc, here, part)?);
    }
    assigned_value(context, nested, parser, do_owner)
}

/// Tests that are joined by `and` and `or`.
///
/// # Errors
///
/// Where the grammar derives none here, where symbols nest too deep, and where there is not memory enough.
pub fn expression<N: Operators>(
    context: Context<'_>,
    nested: &N,
    parser: &mut Parser<'_>,
    do_owner: DoBlockOwner,
) -> Result<Subtree, Failure>
    requires { N.IsReady nested.now }
    ensures reads { Reads Holds parser.old parser.new result (read_expr context.entry.source.now (N.readers nested.now context.entry.source.now) (do_owner_of do_owner)) }
{
    let here = parser.lookahead(context).position();
    let first = test(context, nested, parser, do_owner)?;
    joined(context, nested, parser, do_owner, here, first)
}

// The tests behind the first ones, which begin at the position, joined to them from left to right.
fn joined<N: Nested>(
    context: Context<'_>,
    nested: &N,
    parser: &mut Parser<'_>,
    do_owner: DoBlockOwner,
    here: SourcePosition,
    mut left: Subtree,
) -> Result<Subtree, Failure>
    requires { N.IsReady nested.now }
    ensures reads { (o : Toks) (a : Tree) → position_of here ≡ position o → Holds parser.old.symbols left a → ReadsWithin Holds parser.old parser.new result (λ m. tests context.entry.source.now (N.readers nested.now context.entry.source.now) m (do_owner_of do_owner) o a) }
{
    while let Some(joining) = joining_here(context, parser) {
        left = one_joining(context, nested, parser, do_owner, joining, here, left)?;
    }
    Ok(left)
}

// What joins a test that stands behind it.
fn joining_here(context: Context<'_>, parser: &Parser<'_>) -> Option<LogicalOperator>
    ensures is { (w : Toks) (s : Scope) → At parser.now w s → result ≡ joining_at context.entry.source.now w }
    ensures some { (joining : LogicalOperator) → result ≡ Some joining → 0 < length parser.now.rest.now }
{
    if parser.is_word(context, "and") {
        return Some(LogicalOperator::And);
    }
    if parser.is_word(context, "or") {
        return Some(LogicalOperator::Or);
    }
    None
}

// The word that stands here, and the test behind it.
fn one_joining<N: Nested>(
    context: Context<'_>,
    nested: &N,
    parser: &mut Parser<'_>,
    do_owner: DoBlockOwner,
    joining: LogicalOperator,
    here: SourcePosition,
    left: Subtree,
) -> Result<Subtree, Failure>
    requires { N.IsReady nested.now }
    ensures reads { (o : Toks) (a : Tree) → position_of here ≡ position o → Holds parser.old.symbols left a → Reads Holds parser.old parser.new result (one_joining (N.readers nested.now context.entry.source.now) joining (do_owner_of do_owner) o a) }
    ensures fewer { (x : Subtree) → result ≡ Ok x → length parser.new.rest.now ≤ length parser.old.rest.now - 1 }
{
    parser.bump();
    let right = nested.test(context, parser, do_owner)?;
    Ok(made(context.alloc, joining, here, left, right)?)
}

// The tree of two tests that are joined. The first one begins at the position.
fn made(
    alloc: Global,
    joining: LogicalOperator,
    here: SourcePosition,
    left: Subtree,
    right: Subtree,
) -> Result<Subtree, NoMemory>
    ensures made { (T : Texts) (o v : Toks) (a b : Tree) → position_of here ≡ position o → Holds T left a → Holds T right b → IfOk result (λ part. Holds T part (joined_by joining o v a b)) }
{
    match joining {
        LogicalOperator::And => conjunction(alloc, here, left, right),
        LogicalOperator::Or => disjunction(alloc, here, left, right),
    }
}

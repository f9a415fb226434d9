//! Operators behind an operand, level by level.
//!
//! A loop goes over the levels from the tightest on, and as many operators of a level as stand side by side are joined in a loop too: so the stack holds one call of these functions for each
//! operand that stands to the right of an operator whose right operand is not yet read.
ghost use Rattle.std.specs.Prelude.{◌≡◌, ◌<◌, ◌≤◌, ◌-◌, length, true, Ok};
ghost use Rattle.ruby_lexer.specs.Pieces.{Toks};
ghost use Rattle.ruby_tree.specs.Tree.{Tree};
ghost use Rattle.ruby_tree.specs.Rules.{Scope, position};
ghost use Rattle.ruby_tree.specs.SourcePositions.{position_of};
ghost use Rattle.token_lookahead.specs.Lookaheads.{do_owner_of};
ghost use Rattle.tree_builder.specs.Subtrees.{Holds};
ghost use Rattle.reference_parser.specs.ReadLevels.{all_levels, read_rest, compare, read_level};
ghost use Rattle.reference_parser.specs.ReadLevels as reader;
ghost use Rattle.parse_state.specs.Standing.{At};
ghost use Rattle.parse_state.specs.Gives.{Reads};
ghost use Rattle.parse_operators.specs.Levels.{level_of, levels_of, operation_of, joins, make_of, one_turn};

use crate::operations::{BinaryOperation, made_with};
use crate::precedence::PrecedenceLevel;
use crate::prefixes::minus;
use parse_state::{Context, Failure, Nested, Operands, Parser};
use ruby_tree::SourcePosition;
use token_lookahead::DoBlockOwner;
use tree_builder::{ElseSubtree, Subtree};

/// An operand with the binary operators behind it.
///
/// # Errors
///
/// Where the grammar derives none here, where symbols nest too deep, and where there is not memory enough.
pub fn level<N: Operands>(
    context: Context<'_>,
    nested: &N,
    parser: &mut Parser<'_>,
    do_owner: DoBlockOwner,
) -> Result<Subtree, Failure>
    requires { N.IsReady nested.now }
    ensures reads { Reads Holds parser.old parser.new result (read_level context.entry.source.now (N.readers nested.now context.entry.source.now) all_levels (do_owner_of do_owner)) }
{
    let levels = PrecedenceLevel::all();
    operand(context, nested, parser, do_owner, levels)
}

/// The binary operators behind an operand that begins at the position.
///
/// # Errors
///
/// As [`level`].
pub fn climb<N: Operands>(
    context: Context<'_>,
    nested: &N,
    parser: &mut Parser<'_>,
    do_owner: DoBlockOwner,
    here: SourcePosition,
    left: Subtree,
) -> Result<Subtree, Failure>
    requires { N.IsReady nested.now }
    ensures reads { (o : Toks) (a : Tree) → position_of here ≡ position o → Holds parser.old.symbols left a → Reads Holds parser.old parser.new result (reader.climb context.entry.source.now (N.readers nested.now context.entry.source.now) all_levels (do_owner_of do_owner) o a) }
{
    let levels = PrecedenceLevel::all();
    over(context, nested, parser, do_owner, levels, here, left)
}

// An operand with the operators of these levels behind it.
#[cycle(levels)]
fn operand<N: Operands>(
    context: Context<'_>,
    nested: &N,
    parser: &mut Parser<'_>,
    do_owner: DoBlockOwner,
    levels: &[PrecedenceLevel],
) -> Result<Subtree, Failure>
    requires { N.IsReady nested.now }
    ensures reads { Reads Holds parser.old parser.new result (read_level context.entry.source.now (N.readers nested.now context.entry.source.now) (levels_of levels.now) (do_owner_of do_owner)) }
{
    let here = parser.lookahead(context).position();
    let first = minus(context, nested, parser, do_owner)?;
    over(context, nested, parser, do_owner, levels, here, first)
}

// The operators of these levels behind an operand, the tightest first.
#[cycle(levels)]
fn over<N: Operands>(
    context: Context<'_>,
    nested: &N,
    parser: &mut Parser<'_>,
    do_owner: DoBlockOwner,
    levels: &[PrecedenceLevel],
    here: SourcePosition,
    mut left: Subtree,
) -> Result<Subtree, Failure>
    requires { N.IsReady nested.now }
    ensures reads { (o : Toks) (a : Tree) → position_of here ≡ position o → Holds parser.old.symbols left a → Reads Holds parser.old parser.new result (reader.climb context.entry.source.now (N.readers nested.now context.entry.source.now) (levels_of levels.now) (do_owner_of do_owner) o a) }
{
    for (index, level) in levels.iter().enumerate() {
        let below = &levels[..index];
        left = at_level(context, nested, parser, do_owner, *level, below, here, left)?;
    }
    Ok(left)
}

// The operators of one level behind an operand.
#[cycle(levels)]
#[allow(clippy::too_many_arguments)]
fn at_level<N: Operands>(
    context: Context<'_>,
    nested: &N,
    parser: &mut Parser<'_>,
    do_owner: DoBlockOwner,
    level: PrecedenceLevel,
    below: &[PrecedenceLevel],
    here: SourcePosition,
    left: Subtree,
) -> Result<Subtree, Failure>
    requires { N.IsReady nested.now }
    ensures reads { (o : Toks) (a : Tree) → position_of here ≡ position o → Holds parser.old.symbols left a → Reads Holds parser.old parser.new result (reader.at_level context.entry.source.now (N.readers nested.now context.entry.source.now) (level_of level) (read_level context.entry.source.now (N.readers nested.now context.entry.source.now) (levels_of below.now) (do_owner_of do_owner)) (do_owner_of do_owner) o a) }
{
    match level {
        PrecedenceLevel::Equality => compared(context, nested, parser, do_owner, below, here, left),
        PrecedenceLevel::Ranges => ranged(context, nested, parser, do_owner, below, here, left),
        PrecedenceLevel::Conditional => chosen(context, nested, parser, do_owner, here, left),
        _ => rest(context, nested, parser, do_owner, level, below, here, left),
    }
}

// The operators of a level that joins operands to the left.
#[cycle(levels)]
#[allow(clippy::too_many_arguments)]
fn rest<N: Operands>(
    context: Context<'_>,
    nested: &N,
    parser: &mut Parser<'_>,
    do_owner: DoBlockOwner,
    level: PrecedenceLevel,
    below: &[PrecedenceLevel],
    here: SourcePosition,
    mut left: Subtree,
) -> Result<Subtree, Failure>
    requires { N.IsReady nested.now }
    ensures reads { (o : Toks) (a : Tree) → position_of here ≡ position o → Holds parser.old.symbols left a → Reads Holds parser.old parser.new result (read_rest context.entry.source.now (joins context.entry.source.now level) (make_of context.entry.source.now (operation_of level)) (read_level context.entry.source.now (N.readers nested.now context.entry.source.now) (levels_of below.now) (do_owner_of do_owner)) o a) }
{
    while joins_here(context, parser, level) {
        let operation = level.operation();
        left = turn(
            context, nested, parser, do_owner, operation, below, here, left,
        )?;
    }
    Ok(left)
}

// Whether an operator stands here that joins operands of this level to the left.
#[inline(never)]
fn joins_here(context: Context<'_>, parser: &Parser<'_>, level: PrecedenceLevel) -> bool
    ensures is { (w : Toks) (s : Scope) → At parser.now w s → result ≡ joins context.entry.source.now level w }
    ensures some { result ≡ true → 0 < length parser.now.rest.now }
{
    level.joins(parser.lookahead(context))
}

// One comparison, or none.
#[cycle(levels)]
fn compared<N: Operands>(
    context: Context<'_>,
    nested: &N,
    parser: &mut Parser<'_>,
    do_owner: DoBlockOwner,
    below: &[PrecedenceLevel],
    here: SourcePosition,
    left: Subtree,
) -> Result<Subtree, Failure>
    requires { N.IsReady nested.now }
    ensures reads { (o : Toks) (a : Tree) → position_of here ≡ position o → Holds parser.old.symbols left a → Reads Holds parser.old parser.new result (compare context.entry.source.now (read_level context.entry.source.now (N.readers nested.now context.entry.source.now) (levels_of below.now) (do_owner_of do_owner)) o a) }
{
    if parser.lookahead(context).is_equality() {
        let operation = BinaryOperation::Sent;
        return turn(
            context, nested, parser, do_owner, operation, below, here, left,
        );
    }
    if parser.is_mark(context, "!=") {
        let operation = BinaryOperation::Differs;
        return turn(
            context, nested, parser, do_owner, operation, below, here, left,
        );
    }
    Ok(left)
}

// One range, or none.
#[cycle(levels)]
fn ranged<N: Operands>(
    context: Context<'_>,
    nested: &N,
    parser: &mut Parser<'_>,
    do_owner: DoBlockOwner,
    below: &[PrecedenceLevel],
    here: SourcePosition,
    left: Subtree,
) -> Result<Subtree, Failure>
    requires { N.IsReady nested.now }
    ensures reads { (o : Toks) (a : Tree) → position_of here ≡ position o → Holds parser.old.symbols left a → Reads Holds parser.old parser.new result (reader.ranged context.entry.source.now (read_level context.entry.source.now (N.readers nested.now context.entry.source.now) (levels_of below.now) (do_owner_of do_owner)) o a) }
{
    if parser.is_mark(context, "..") {
        let operation = BinaryOperation::Closed;
        return turn(
            context, nested, parser, do_owner, operation, below, here, left,
        );
    }
    if parser.is_mark(context, "...") {
        let operation = BinaryOperation::HalfOpen;
        return turn(
            context, nested, parser, do_owner, operation, below, here, left,
        );
    }
    Ok(left)
}

// The operator that stands here, and its second operand.
#[cycle(levels)]
#[allow(clippy::too_many_arguments)]
fn turn<N: Operands>(
    context: Context<'_>,
    nested: &N,
    parser: &mut Parser<'_>,
    do_owner: DoBlockOwner,
    operation: BinaryOperation,
    below: &[PrecedenceLevel],
    here: SourcePosition,
    left: Subtree,
) -> Result<Subtree, Failure>
    requires { N.IsReady nested.now }
    ensures reads { (o : Toks) (a : Tree) → position_of here ≡ position o → Holds parser.old.symbols left a → Reads Holds parser.old parser.new result (one_turn context.entry.source.now operation (read_level context.entry.source.now (N.readers nested.now context.entry.source.now) (levels_of below.now) (do_owner_of do_owner)) o a) }
    ensures fewer { (x : Subtree) → result ≡ Ok x → length parser.new.rest.now ≤ length parser.old.rest.now - 1 }
{
    let operator = parser.lookahead(context);
    parser.bump();
    let right = operand(context, nested, parser, do_owner, below);
    made_with(context, parser, operation, here, operator, left, right)
}

// `? b : c` behind a condition, or nothing.
#[inline(never)]
fn chosen<N: Nested>(
    context: Context<'_>,
    nested: &N,
    parser: &mut Parser<'_>,
    do_owner: DoBlockOwner,
    here: SourcePosition,
    condition: Subtree,
) -> Result<Subtree, Failure>
    requires { N.IsReady nested.now }
    ensures reads { (o : Toks) (c : Tree) → position_of here ≡ position o → Holds parser.old.symbols condition c → Reads Holds parser.old parser.new result (reader.chosen context.entry.source.now (N.readers nested.now context.entry.source.now) (do_owner_of do_owner) o c) }
{
    if parser.is_mark(context, "?") {
        parser.bump();
        let first = nested.argument(context, parser, do_owner)?;
        parser.expect_mark(context, ":")?;
        let second = nested.argument(context, parser, do_owner)?;
        let second = ElseSubtree::some(context.alloc, second)?;
        return Ok(tree_builder::if_else(context.alloc, here, condition, first, second)?);
    }
    Ok(condition)
}

//! Operators before an operand, and `**` behind one.
ghost use Rattle.std.specs.Prelude.{◌≡◌, ◌&&◌, not, codes};
ghost use Rattle.ruby_lexer.specs.Bytes.{Bytes};
ghost use Rattle.ruby_lexer.specs.Pieces.{Toks};
ghost use Rattle.ruby_tree.specs.Tree.{Tree};
ghost use Rattle.ruby_tree.specs.Rules.{Scope, position, is_mark, is_negative};
ghost use Rattle.ruby_tree.specs.SourcePositions.{position_of};
ghost use Rattle.token_lookahead.specs.Lookaheads.{do_owner_of};
ghost use Rattle.tree_builder.specs.Subtrees.{Holds};
ghost use Rattle.reference_parser.specs.ReadItems.{Readers};
ghost use Rattle.reference_parser.specs.ReadOperands.{Start};
ghost use Rattle.reference_parser.specs.ReadLevels.{operand_of, read_unary_operand, read_power, read_minus};
ghost use Rattle.reference_parser.specs.ReadLevels as reader;
ghost use Rattle.parse_state.specs.Standing.{At};
ghost use Rattle.parse_state.specs.declared.standing.Parser.{Parser};
ghost use Rattle.parse_state.specs.Gives.{Gives, Reads};
ghost use Rattle.parse_state.specs.Forms.{HoldsOperandForm};
ghost use Rattle.parse_operators.specs.Levels.{behind_sign, read_plain};

use crate::operations::{operated, sent_alone};
use parse_state::{Context, Failure, Nested, OperandForm, Operands, Parser};
use ruby_tree::SourcePosition;
use token_lookahead::DoBlockOwner;
use tree_builder::Subtree;

/// An operand, or one behind `!`, `~` or a unary plus.
///
/// # Errors
///
/// Where the grammar derives none here, where symbols nest too deep, and where there is not memory enough.
pub fn unary_operand<N: Operands>(
    context: Context<'_>,
    nested: &N,
    parser: &mut Parser<'_>,
    do_owner: DoBlockOwner,
) -> Result<Subtree, Failure>
    requires { N.IsReady nested.now }
    ensures reads { Reads Holds parser.old parser.new result (read_unary_operand context.entry.source.now (N.readers nested.now context.entry.source.now) (do_owner_of do_owner)) }
{
    if parser.is_mark(context, "!") {
        return before_unary_operand(context, nested, parser, do_owner, b"!");
    }
    if parser.is_mark(context, "~") {
        return before_unary_operand(context, nested, parser, do_owner, b"~");
    }
    if parser.is_mark(context, "+") {
        return before_unary_operand(context, nested, parser, do_owner, b"+@");
    }
    plain(context, nested, parser, do_owner)
}

// An operand behind an operator of this name.
#[inline(never)]
fn before_unary_operand<N: Nested>(
    context: Context<'_>,
    nested: &N,
    parser: &mut Parser<'_>,
    do_owner: DoBlockOwner,
    name: &[u8],
) -> Result<Subtree, Failure>
    requires { N.IsReady nested.now }
    ensures reads { Reads Holds parser.old parser.new result (behind_sign ((N.readers nested.now context.entry.source.now).unary_operand (do_owner_of do_owner)) name.now) }
{
    let here = parser.lookahead(context).position();
    parser.bump();
    let operand = nested.unary_operand(context, parser, do_owner)?;
    sent_alone(context, parser, here, operand, name)
}

// An operand that is no attribute, element or command which what stands behind it would need.
fn plain<N: Operands>(
    context: Context<'_>,
    nested: &N,
    parser: &mut Parser<'_>,
    do_owner: DoBlockOwner,
) -> Result<Subtree, Failure>
    requires { N.IsReady nested.now }
    ensures reads { Reads Holds parser.old parser.new result (read_plain context.entry.source.now (N.readers nested.now context.entry.source.now) (do_owner_of do_owner)) }
{
    operand_alone(nested.postfix(context, parser, do_owner)?)
}

// The operand, where it was read as one.
#[inline(never)]
fn operand_alone(start: OperandForm) -> Result<Subtree, Failure>
    ensures { (source : Bytes) (Q : Readers) (p : Parser) (t : Start) (w : Toks) (s : Scope) → At p w s → HoldsOperandForm p.symbols start t → Gives Holds p p result (operand_of source Q t w s) }
{
    if let OperandForm::Operand(operand) = start {
        return Ok(operand);
    }
    Err(Failure::Syntax)
}

/// `**` and what stands behind it, behind an operand that begins at the position.
///
/// # Errors
///
/// As [`unary_operand`].
pub fn raised<N: Nested>(
    context: Context<'_>,
    nested: &N,
    parser: &mut Parser<'_>,
    do_owner: DoBlockOwner,
    here: SourcePosition,
    left: Subtree,
) -> Result<Subtree, Failure>
    requires { N.IsReady nested.now }
    ensures reads { (o : Toks) (a : Tree) → position_of here ≡ position o → Holds parser.old.symbols left a → Reads Holds parser.old parser.new result (reader.raised context.entry.source.now (N.readers nested.now context.entry.source.now) (do_owner_of do_owner) o a) }
{
    if parser.is_mark(context, "**") {
        let operator = parser.lookahead(context);
        parser.bump();
        let right = nested.power(context, parser, do_owner)?;
        return operated(context, parser, here, operator, left, right);
    }
    Ok(left)
}

/// A power, or an operand.
///
/// # Errors
///
/// As [`unary_operand`].
pub fn power<N: Operands>(
    context: Context<'_>,
    nested: &N,
    parser: &mut Parser<'_>,
    do_owner: DoBlockOwner,
) -> Result<Subtree, Failure>
    requires { N.IsReady nested.now }
    ensures reads { Reads Holds parser.old parser.new result (read_power context.entry.source.now (N.readers nested.now context.entry.source.now) (do_owner_of do_owner)) }
{
    let here = parser.lookahead(context).position();
    let base = unary_operand(context, nested, parser, do_owner)?;
    raised(context, nested, parser, do_owner, here, base)
}

/// A power, or one behind a unary minus.
///
/// # Errors
///
/// As [`unary_operand`].
pub fn minus<N: Operands>(
    context: Context<'_>,
    nested: &N,
    parser: &mut Parser<'_>,
    do_owner: DoBlockOwner,
) -> Result<Subtree, Failure>
    requires { N.IsReady nested.now }
    ensures reads { Reads Holds parser.old parser.new result (read_minus context.entry.source.now (N.readers nested.now context.entry.source.now) (do_owner_of do_owner)) }
{
    if is_sign(context, parser) {
        return before_minus(context, nested, parser, do_owner);
    }
    power(context, nested, parser, do_owner)
}

// Whether a minus stands here that is not a number's.
fn is_sign(context: Context<'_>, parser: &Parser<'_>) -> bool
    ensures { (w : Toks) (s : Scope) → At parser.now w s → result ≡ (is_mark context.entry.source.now (codes "-") w && not (is_negative context.entry.source.now w)) }
{
    let lookahead = parser.lookahead(context);
    lookahead.is_mark("-") && !lookahead.is_negative()
}

// An operand behind a unary minus.
#[inline(never)]
fn before_minus<N: Nested>(
    context: Context<'_>,
    nested: &N,
    parser: &mut Parser<'_>,
    do_owner: DoBlockOwner,
) -> Result<Subtree, Failure>
    requires { N.IsReady nested.now }
    ensures reads { Reads Holds parser.old parser.new result (behind_sign ((N.readers nested.now context.entry.source.now).minus (do_owner_of do_owner)) (codes "-@")) }
{
    let here = parser.lookahead(context).position();
    parser.bump();
    let operand = nested.minus(context, parser, do_owner)?;
    sent_alone(context, parser, here, operand, b"-@")
}

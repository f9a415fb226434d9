//! What the layers read of each symbol.
ghost use Rattle.token_lookahead.specs.Lookaheads.{do_owner_of};
ghost use Rattle.parse_state.specs.Gives.{Reads};
ghost use Rattle.parse_program.specs.Knot.{HoldsFound, read_over};

use crate::founds::{Found, found, found_other};
use parse_operators::{minus, power, unary_operand};
use parse_parts::else_branches;
use parse_state::{Context, Failure, NestedSymbol, Operators, Parser};
use parse_statements::{argument, assigned_value, expression, statements, test};
use token_lookahead::DoBlockOwner;
use tree_builder::Subtree;

/// A symbol, over those that nest in it.
///
/// # Errors
///
/// Where the grammar derives none here, where symbols nest too deep, and where there is not memory enough.
pub(crate) fn read_symbol<N: Operators>(
    symbol: NestedSymbol,
    context: Context<'_>,
    nested: &N,
    parser: &mut Parser<'_>,
    do_owner: DoBlockOwner,
) -> Found
    requires { N.IsReady nested.now }
    ensures reads { Reads HoldsFound parser.old parser.new result (read_over context.entry.source.now (N.readers nested.now context.entry.source.now) symbol (do_owner_of do_owner)) }
{
    match symbol {
        NestedSymbol::Statements => found(statements(context, nested, parser, do_owner)),
        NestedSymbol::Expression => found(expression(context, nested, parser, do_owner)),
        NestedSymbol::Test => found(test(context, nested, parser, do_owner)),
        NestedSymbol::AssignedValue => found(assigned_value(context, nested, parser, do_owner)),
        NestedSymbol::Argument => found(argument(context, nested, parser, do_owner)),
        NestedSymbol::Minus => found(minus(context, nested, parser, do_owner)),
        NestedSymbol::Power => found(power(context, nested, parser, do_owner)),
        NestedSymbol::UnaryOperand => found(unary_operand(context, nested, parser, do_owner)),
        NestedSymbol::ElseBranches => found_other(else_branches(context, nested, parser, do_owner)),
    }
}

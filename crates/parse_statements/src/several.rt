//! Several variables that are set at once.
ghost use Rattle.std.specs.Prelude.{◌≡◌};
ghost use Rattle.ruby_lexer.specs.Pieces.{Toks};
ghost use Rattle.ruby_tree.specs.Tree.{Tree};
ghost use Rattle.ruby_tree.specs.Rules.{Scope, position};
ghost use Rattle.ruby_tree.specs.SourcePositions.{position_of};
ghost use Rattle.token_lookahead.specs.Lookaheads.{do_owner_of};
ghost use Rattle.tree_builder.specs.Subtrees.{Holds};
ghost use Rattle.parse_state.specs.Gives.{Reads};
ghost use Rattle.reference_parser.specs.ReadStatements.{read_head};
ghost use Rattle.parse_statements.specs.Statements.{read_set_all};

use crate::logic::expression;
use parse_parts::{several, targets};
use parse_state::{Context, Failure, Nested, Operators, Parser};
use token_lookahead::DoBlockOwner;
use tree_builder::{Subtree, assign_all};

/// A statement without its modifiers: variables that are set at once, or an expression.
///
/// # Errors
///
/// Where the grammar derives none here, where symbols nest too deep, and where there is not memory enough.
pub fn head<N: Operators>(
    context: Context<'_>,
    nested: &N,
    parser: &mut Parser<'_>,
    do_owner: DoBlockOwner,
) -> Result<Subtree, Failure>
    requires { N.IsReady nested.now }
    ensures reads { Reads Holds parser.old parser.new result (read_head context.entry.source.now (N.readers nested.now context.entry.source.now) (do_owner_of do_owner)) }
{
    if parser.lookahead(context).begins_targets() {
        return set_all(context, nested, parser, do_owner);
    }
    expression(context, nested, parser, do_owner)
}

// Two and more variables that are set at once.
fn set_all<N: Nested>(
    context: Context<'_>,
    nested: &N,
    parser: &mut Parser<'_>,
    do_owner: DoBlockOwner,
) -> Result<Subtree, Failure>
    requires { N.IsReady nested.now }
    ensures reads { Reads Holds parser.old parser.new result (read_set_all context.entry.source.now (N.readers nested.now context.entry.source.now) (do_owner_of do_owner)) }
{
    let here = parser.lookahead(context).position();
    let targets = targets(context, parser)?;
    parser.expect_mark(context, "=")?;
    let values = several(context, nested, parser, do_owner)?;
    Ok(assign_all(here, values, targets))
}

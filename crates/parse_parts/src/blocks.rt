//! Blocks, and what a call is given with its block.
ghost use Rattle.std.specs.Prelude.{◌≡◌};
ghost use Rattle.ruby_tree.specs.Tree.{Tree};
ghost use Rattle.ruby_tree.specs.Build.{Given, has_block};
ghost use Rattle.token_lookahead.specs.Lookaheads.{do_owner_of};
ghost use Rattle.tree_builder.specs.Subtrees.{Holds, HoldsOther};
ghost use Rattle.reference_parser.specs.Answers.{Answer};
ghost use Rattle.reference_parser.specs.ReadBodies.{do_block, brace_block, read_block, call_block, command_block, call_items};
ghost use Rattle.parse_state.specs.declared.standing.Parser.{Parser};
ghost use Rattle.parse_state.specs.Gives.{Gives, Reads};
ghost use Rattle.parse_parts.specs.Items.{HoldsGiven};
ghost use Rattle.parse_parts.specs.Called.{HoldsCalled};
ghost use Rattle.parse_parts.specs.Parts.{as_given, called_with};

use crate::clauses::body;
use crate::{ArgumentParts, bars, in_brackets};
use parse_state::{Context, Failure, Nested, Parser};
use token_lookahead::DoBlockOwner;
use tree_builder::{ElseSubtree, Subtree};

/// A block, which begins here with `do` or `{`.
pub fn block<N: Nested>(
    context: Context<'_>,
    nested: &N,
    parser: &mut Parser<'_>,
) -> Result<Subtree, Failure>
    requires { N.IsReady nested.now }
    ensures reads { Reads Holds parser.old parser.new result (read_block context.entry.source.now (N.readers nested.now context.entry.source.now)) }
{
    if parser.is_mark(context, "{") {
        return brace_block(context, nested, parser);
    }
    do_block(context, nested, parser)
}

// A block in `do` and `end`. Its parameters and what it sets are no locals behind it.
fn do_block<N: Nested>(
    context: Context<'_>,
    nested: &N,
    parser: &mut Parser<'_>,
) -> Result<Subtree, Failure>
    requires { N.IsReady nested.now }
    ensures reads { Reads Holds parser.old parser.new result (do_block context.entry.source.now (N.readers nested.now context.entry.source.now)) }
{
    let here = parser.lookahead(context).position();
    let count = parser.locals.len();
    let in_clause = parser.in_clause;
    parser.bump();
    parser.leave_clause();
    let params = bars(context, parser)?;
    let behind = parser.lookahead(context).position();
    let code = body(context, nested, parser, DoBlockOwner::Own, behind)?;
    parser.expect_word(context, "end")?;
    parser.close_block(count, in_clause);
    Ok(tree_builder::body(context.alloc, here, params, code)?)
}

// A block in braces, in which no clause of a `rescue` stands.
fn brace_block<N: Nested>(
    context: Context<'_>,
    nested: &N,
    parser: &mut Parser<'_>,
) -> Result<Subtree, Failure>
    requires { N.IsReady nested.now }
    ensures reads { Reads Holds parser.old parser.new result (brace_block context.entry.source.now (N.readers nested.now context.entry.source.now)) }
{
    let here = parser.lookahead(context).position();
    let count = parser.locals.len();
    let in_clause = parser.in_clause;
    parser.bump();
    parser.leave_clause();
    let params = bars(context, parser)?;
    let code = nested.statements(context, parser, DoBlockOwner::Own)?;
    parser.expect_mark(context, "}")?;
    parser.close_block(count, in_clause);
    Ok(tree_builder::body(context.alloc, here, params, code)?)
}

// A block that was read, as what a call is given.
fn as_given(context: Context<'_>, block: Result<Subtree, Failure>) -> Result<ElseSubtree, Failure>
    ensures { (p q : Parser) (a : Answer Tree) → Gives Holds p q block a → Gives HoldsOther p q result (as_given a) }
{
    let block = block?;
    Ok(ElseSubtree::some(context.alloc, block)?)
}

/// The block of a call: the one that stands here, or else what it was given.
pub fn call_block<N: Nested>(
    context: Context<'_>,
    nested: &N,
    parser: &mut Parser<'_>,
    do_owner: DoBlockOwner,
    is_given: bool,
    given: ElseSubtree,
) -> Result<ElseSubtree, Failure>
    requires { N.IsReady nested.now }
    ensures reads { (g : Given) → is_given ≡ has_block g → HoldsOther parser.old.symbols given g.block → Reads HoldsOther parser.old parser.new result (call_block context.entry.source.now (N.readers nested.now context.entry.source.now) (do_owner_of do_owner) g) }
{
    if is_given {
        return Ok(given);
    }
    if parser.lookahead(context).opens_block(do_owner) {
        return as_given(context, block(context, nested, parser));
    }
    Ok(given)
}

/// The block of a command: the one that begins here with `do`, or else what it was given.
pub fn command_block<N: Nested>(
    context: Context<'_>,
    nested: &N,
    parser: &mut Parser<'_>,
    do_owner: DoBlockOwner,
    is_given: bool,
    given: ElseSubtree,
) -> Result<ElseSubtree, Failure>
    requires { N.IsReady nested.now }
    ensures reads { (g : Given) → is_given ≡ has_block g → HoldsOther parser.old.symbols given g.block → Reads HoldsOther parser.old parser.new result (command_block context.entry.source.now (N.readers nested.now context.entry.source.now) (do_owner_of do_owner) g) }
{
    if is_given {
        return Ok(given);
    }
    if parser.lookahead(context).opens_do(do_owner) {
        return as_given(context, do_block(context, nested, parser));
    }
    Ok(given)
}

/// What a call is given in brackets, where they stand here, with its block.
pub fn call_items<N: Nested>(
    context: Context<'_>,
    nested: &N,
    parser: &mut Parser<'_>,
    do_owner: DoBlockOwner,
) -> Result<ArgumentParts, Failure>
    requires { N.IsReady nested.now }
    ensures reads { Reads HoldsCalled parser.old parser.new result (call_items context.entry.source.now (N.readers nested.now context.entry.source.now) (do_owner_of do_owner)) }
{
    if parser.lookahead(context).opens() {
        let given = in_brackets(context, nested, parser)?;
        return with_block(context, nested, parser, do_owner, given);
    }
    with_block(
        context,
        nested,
        parser,
        do_owner,
        ArgumentParts::nothing(context.alloc),
    )
}

// What a call was given, with the block that stands here.
fn with_block<N: Nested>(
    context: Context<'_>,
    nested: &N,
    parser: &mut Parser<'_>,
    do_owner: DoBlockOwner,
    given: ArgumentParts,
) -> Result<ArgumentParts, Failure>
    requires { N.IsReady nested.now }
    ensures reads { (g : Given) → HoldsGiven parser.old.symbols given g → Reads HoldsCalled parser.old parser.new result (called_with context.entry.source.now (N.readers nested.now context.entry.source.now) (do_owner_of do_owner) g) }
{
    let is_given = given.has_block();
    let ArgumentParts {
        arguments,
        spread,
        value,
        block,
    } = given;
    let block = call_block(context, nested, parser, do_owner, is_given, block)?;
    Ok(ArgumentParts {
        arguments,
        spread,
        value,
        block,
    })
}

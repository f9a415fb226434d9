//! Commands: calls whose arguments need no brackets, and the words that leave.
ghost use Rattle.ruby_lexer.specs.Bytes.{Bytes};
ghost use Rattle.ruby_tree.specs.Names.{Texts};
ghost use Rattle.ruby_tree.specs.Tree.{Tree, Trees, at};
ghost use Rattle.ruby_tree.specs.SourcePositions.{position_of};
ghost use Rattle.token_lookahead.specs.Lookaheads.{do_owner_of};
ghost use Rattle.tree_builder.specs.Subtrees.{IsNamed, Holds, HoldsAll};
ghost use Rattle.reference_parser.specs.ReadStatements.{command_by, read_values, read_command};
ghost use Rattle.parse_state.specs.Gives.{Reads};
ghost use Rattle.parse_statements.specs.Commands.{named_command, yield_command, super_command, leaving_form, leaving_command};

use parse_parts::{ArgumentParts, command_block, command_items, several};
use parse_state::{Context, Failure, Nested, Parser};
use ruby_tree::{Name, SourcePosition};
use token_lookahead::DoBlockOwner;
use tree_builder::{
    ElseSubtree, Subtree, Subtrees, break_with, call_form, next_with, return_with, send,
    super_with, yield_with,
};

/// A word that leaves, and takes values along.
#[derive(Clone, Copy, Drop)]
enum Leaving {
    /// `return`
    Return,
    /// `break`
    Break,
    /// `next`
    Next,
}

/// A command that begins with its name or its word.
///
/// # Errors
///
/// Where the grammar derives none here, where symbols nest too deep, and where there is not memory enough.
pub fn command<N: Nested>(
    context: Context<'_>,
    nested: &N,
    parser: &mut Parser<'_>,
    do_owner: DoBlockOwner,
) -> Result<Subtree, Failure>
    requires { N.IsReady nested.now }
    ensures reads { Reads Holds parser.old parser.new result (read_command context.entry.source.now (N.readers nested.now context.entry.source.now) (do_owner_of do_owner)) }
{
    if parser.lookahead(context).is_name() {
        return named_command(context, nested, parser, do_owner);
    }
    if parser.is_word(context, "yield") {
        return yield_command(context, nested, parser, do_owner);
    }
    if parser.is_word(context, "super") {
        return super_command(context, nested, parser, do_owner);
    }
    if parser.is_word(context, "return") {
        return leaving_command(context, nested, parser, do_owner, Leaving::Return);
    }
    if parser.is_word(context, "break") {
        return leaving_command(context, nested, parser, do_owner, Leaving::Break);
    }
    leaving_command(context, nested, parser, do_owner, Leaving::Next)
}

// A name with its items and its block.
fn named_command<N: Nested>(
    context: Context<'_>,
    nested: &N,
    parser: &mut Parser<'_>,
    do_owner: DoBlockOwner,
) -> Result<Subtree, Failure>
    requires { N.IsReady nested.now }
    ensures reads { Reads Holds parser.old parser.new result (named_command context.entry.source.now (N.readers nested.now context.entry.source.now) (do_owner_of do_owner)) }
{
    let here = parser.lookahead(context).position();
    let name = parser.word_name(context)?;
    parser.bump();
    let given = command_items(context, nested, parser, do_owner)?;
    let has_block = given.has_block();
    let ArgumentParts {
        arguments,
        spread,
        value,
        block,
    } = given;
    let block = command_block(context, nested, parser, do_owner, has_block, block)?;
    let receiver = ElseSubtree::none();
    Ok(send(here, receiver, arguments, spread, value, name, false, block))
}

// `yield` with its items, among which no block stands.
fn yield_command<N: Nested>(
    context: Context<'_>,
    nested: &N,
    parser: &mut Parser<'_>,
    do_owner: DoBlockOwner,
) -> Result<Subtree, Failure>
    requires { N.IsReady nested.now }
    ensures reads { Reads Holds parser.old parser.new result (yield_command context.entry.source.now (N.readers nested.now context.entry.source.now) (do_owner_of do_owner)) }
{
    let here = parser.lookahead(context).position();
    parser.bump();
    let given = command_items(context, nested, parser, do_owner)?;
    if given.has_block() {
        return Err(Failure::Syntax);
    }
    Ok(yield_with(here, given.arguments, given.spread))
}

// `super` with its items and its block.
fn super_command<N: Nested>(
    context: Context<'_>,
    nested: &N,
    parser: &mut Parser<'_>,
    do_owner: DoBlockOwner,
) -> Result<Subtree, Failure>
    requires { N.IsReady nested.now }
    ensures reads { Reads Holds parser.old parser.new result (super_command context.entry.source.now (N.readers nested.now context.entry.source.now) (do_owner_of do_owner)) }
{
    let here = parser.lookahead(context).position();
    parser.bump();
    let given = command_items(context, nested, parser, do_owner)?;
    let has_block = given.has_block();
    let ArgumentParts {
        arguments,
        spread,
        value,
        block,
    } = given;
    let block = command_block(context, nested, parser, do_owner, has_block, block)?;
    Ok(super_with(here, arguments, spread, value, block))
}

// The values that a word which leaves takes along, or none.
fn values_behind<N: Nested>(
    context: Context<'_>,
    nested: &N,
    parser: &mut Parser<'_>,
    do_owner: DoBlockOwner,
) -> Result<Subtrees, Failure>
    requires { N.IsReady nested.now }
    ensures reads { Reads HoldsAll parser.old parser.new result (read_values context.entry.source.now (N.readers nested.now context.entry.source.now) (do_owner_of do_owner)) }
{
    if parser.lookahead(context).begins_value() {
        return several(context, nested, parser, do_owner);
    }
    Ok(Subtrees::new(context.alloc))
}

// A word that leaves, with its values.
fn leaving_command<N: Nested>(
    context: Context<'_>,
    nested: &N,
    parser: &mut Parser<'_>,
    do_owner: DoBlockOwner,
    leaving: Leaving,
) -> Result<Subtree, Failure>
    requires { N.IsReady nested.now }
    ensures reads { Reads Holds parser.old parser.new result (leaving_command context.entry.source.now (N.readers nested.now context.entry.source.now) (leaving_form leaving) (do_owner_of do_owner)) }
{
    let here = parser.lookahead(context).position();
    parser.bump();
    let values = values_behind(context, nested, parser, do_owner)?;
    Ok(leaving_form(leaving, here, values))
}

// What leaves with these values.
fn leaving_form(leaving: Leaving, here: SourcePosition, values: Subtrees) -> Subtree
    ensures made { (T : Texts) (ts : Trees) → HoldsAll T values ts → Holds T result (at (position_of here) (leaving_form leaving ts)) }
{
    match leaving {
        Leaving::Return => return_with(here, values),
        Leaving::Break => break_with(here, values),
        Leaving::Next => next_with(here, values),
    }
}

/// The items and the block of a command that was read up to its name.
///
/// # Errors
///
/// Where the grammar derives none here, where symbols nest too deep, and where there is not memory enough.
#[allow(clippy::too_many_arguments)]
pub fn command_behind<N: Nested>(
    context: Context<'_>,
    nested: &N,
    parser: &mut Parser<'_>,
    do_owner: DoBlockOwner,
    safe: bool,
    receiver: Subtree,
    here: SourcePosition,
    name: Name,
) -> Result<Subtree, Failure>
    requires { N.IsReady nested.now }
    ensures reads { (a : Tree) (m : Bytes) → Holds parser.old.symbols receiver a → IsNamed parser.old.symbols name m → Reads Holds parser.old parser.new result (command_by context.entry.source.now (N.readers nested.now context.entry.source.now) (do_owner_of do_owner) safe a (position_of here) m) }
{
    let given = command_items(context, nested, parser, do_owner)?;
    let has_block = given.has_block();
    let ArgumentParts {
        arguments,
        spread,
        value,
        block,
    } = given;
    let block = command_block(context, nested, parser, do_owner, has_block, block)?;
    let alloc = context.alloc;
    Ok(call_form(
        alloc, here, safe, receiver, arguments, spread, value, name, block,
    )?)
}

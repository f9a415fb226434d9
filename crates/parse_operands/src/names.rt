//! Operands that are a name, a constant, `yield` or `super`, with what they are given.
ghost use Rattle.std.specs.Prelude.{◌≡◌, true, false};
ghost use Rattle.ruby_tree.specs.Tree.{at, local, instance, global};
ghost use Rattle.ruby_tree.specs.Rules.{next, position, word};
ghost use Rattle.ruby_tree.specs.Build.{bare_form};
ghost use Rattle.token_lookahead.specs.Lookaheads.{do_owner_of};
ghost use Rattle.tree_builder.specs.Subtrees.{Holds};
ghost use Rattle.reference_parser.specs.Answers.{taken};
ghost use Rattle.reference_parser.specs.ReadOperands.{called_name, read_name, read_constant, read_yield, read_super};
ghost use Rattle.parse_operands.specs.Names.{blocked_name, plain_name, plain_constant, given_yield, given_super, lone_super};
ghost use Rattle.parse_state.specs.Gives.{Reads};

use crate::behind::{arguments_behind, block_behind, local_here, opens_behind, position_here};
use crate::ends::leaf;
use parse_parts::{ArgumentParts, block, call_block, in_brackets};
use parse_state::{Context, Failure, Nested, Parser};
use ruby_tree::Target;
use token_lookahead::DoBlockOwner;
use tree_builder::{
    ElseSubtree, Subtree, Subtrees, bare_form, bare_super, global, instance, local, read_form,
    send, super_with, yield_with,
};

/// A name, and what it is given.
pub fn name<N: Nested>(
    context: Context<'_>,
    nested: &N,
    parser: &mut Parser<'_>,
    do_owner: DoBlockOwner,
) -> Result<Subtree, Failure>
    requires { N.IsReady nested.now }
    ensures reads { Reads Holds parser.old parser.new result (read_name context.entry.source.now (N.readers nested.now context.entry.source.now) (do_owner_of do_owner)) }
{
    if opens_behind(context, parser) {
        return called_name(context, nested, parser, do_owner);
    }
    if parser.is_command(context) {
        return Err(Failure::Syntax);
    }
    if block_behind(context, parser, do_owner) {
        return blocked_name(context, nested, parser);
    }
    plain_name(context, parser)
}

/// A constant, or a method of its name that is given something in brackets.
pub fn constant<N: Nested>(
    context: Context<'_>,
    nested: &N,
    parser: &mut Parser<'_>,
    do_owner: DoBlockOwner,
) -> Result<Subtree, Failure>
    requires { N.IsReady nested.now }
    ensures reads { Reads Holds parser.old parser.new result (read_constant context.entry.source.now (N.readers nested.now context.entry.source.now) (do_owner_of do_owner)) }
{
    if opens_behind(context, parser) {
        return called_name(context, nested, parser, do_owner);
    }
    plain_constant(context, parser)
}

// A name with brackets behind it.
fn called_name<N: Nested>(
    context: Context<'_>,
    nested: &N,
    parser: &mut Parser<'_>,
    do_owner: DoBlockOwner,
) -> Result<Subtree, Failure>
    requires { N.IsReady nested.now }
    ensures reads { Reads Holds parser.old parser.new result (called_name context.entry.source.now (N.readers nested.now context.entry.source.now) (do_owner_of do_owner)) }
{
    let here = position_here(context, parser);
    let name = parser.word_name(context)?;
    parser.bump();
    let given = in_brackets(context, nested, parser)?;
    let has_block = given.has_block();
    let ArgumentParts {
        arguments,
        spread,
        value,
        block,
    } = given;
    let block = call_block(context, nested, parser, do_owner, has_block, block)?;
    let receiver = ElseSubtree::none();
    Ok(send(here, receiver, arguments, spread, value, name, false, block))
}

// A name with a block behind it.
fn blocked_name<N: Nested>(
    context: Context<'_>,
    nested: &N,
    parser: &mut Parser<'_>,
) -> Result<Subtree, Failure>
    requires { N.IsReady nested.now }
    ensures reads { Reads Holds parser.old parser.new result (blocked_name context.entry.source.now (N.readers nested.now context.entry.source.now)) }
{
    let here = position_here(context, parser);
    let name = parser.word_name(context)?;
    parser.bump();
    let part = block(context, nested, parser)?;
    let code = ElseSubtree::some(context.alloc, part)?;
    let receiver = ElseSubtree::none();
    let arguments = Subtrees::new(context.alloc);
    let spread = Vec::new(context.alloc);
    let value = ElseSubtree::none();
    Ok(send(here, receiver, arguments, spread, value, name, false, code))
}

// A local, or a call of a name alone.
fn plain_name(context: Context<'_>, parser: &mut Parser<'_>) -> Result<Subtree, Failure>
    ensures reads { Reads Holds parser.old parser.new result (plain_name context.entry.source.now) }
{
    if local_here(context, parser) {
        return local_name(context, parser);
    }
    bare_name(context, parser)
}

fn local_name(context: Context<'_>, parser: &mut Parser<'_>) -> Result<Subtree, Failure>
    ensures reads { Reads Holds parser.old parser.new result (λ w s. taken (at (position w) (local (word context.entry.source.now w))) (next w) s) }
{
    let here = position_here(context, parser);
    let name = parser.word_name(context)?;
    leaf(parser, local(here, name))
}

fn bare_name(context: Context<'_>, parser: &mut Parser<'_>) -> Result<Subtree, Failure>
    ensures reads { Reads Holds parser.old parser.new result (λ w s. taken (at (position w) (bare_form s (word context.entry.source.now w))) (next w) s) }
{
    let here = position_here(context, parser);
    let text = parser.lookahead(context).word();
    let name = parser.intern(context, text)?;
    let part = bare_form(context.alloc, here, parser.in_clause, text, name);
    leaf(parser, part)
}

// A constant alone.
fn plain_constant(context: Context<'_>, parser: &mut Parser<'_>) -> Result<Subtree, Failure>
    ensures reads { Reads Holds parser.old parser.new result (plain_constant context.entry.source.now) }
{
    let here = position_here(context, parser);
    let name = parser.word_name(context)?;
    let part = read_form(context.alloc, here, Target::Constant(name))?;
    leaf(parser, part)
}

/// A variable of an object.
pub fn instance_variable(context: Context<'_>, parser: &mut Parser<'_>) -> Result<Subtree, Failure>
    ensures reads { Reads Holds parser.old parser.new result (λ w s. taken (at (position w) (instance (word context.entry.source.now w))) (next w) s) }
{
    let here = position_here(context, parser);
    let name = parser.word_name(context)?;
    leaf(parser, instance(here, name))
}

/// A global variable.
pub fn global_variable(context: Context<'_>, parser: &mut Parser<'_>) -> Result<Subtree, Failure>
    ensures reads { Reads Holds parser.old parser.new result (λ w s. taken (at (position w) (global (word context.entry.source.now w))) (next w) s) }
{
    let here = position_here(context, parser);
    let name = parser.word_name(context)?;
    leaf(parser, global(here, name))
}

/// `yield`
pub fn yielded<N: Nested>(
    context: Context<'_>,
    nested: &N,
    parser: &mut Parser<'_>,
) -> Result<Subtree, Failure>
    requires { N.IsReady nested.now }
    ensures reads { Reads Holds parser.old parser.new result (read_yield context.entry.source.now (N.readers nested.now context.entry.source.now)) }
{
    if opens_behind(context, parser) {
        return given_yield(context, nested, parser);
    }
    if arguments_behind(context, parser) {
        return Err(Failure::Syntax);
    }
    let here = position_here(context, parser);
    let arguments = Subtrees::new(context.alloc);
    let spread = Vec::new(context.alloc);
    leaf(parser, yield_with(here, arguments, spread))
}

// `yield` with brackets, in which no block stands.
fn given_yield<N: Nested>(
    context: Context<'_>,
    nested: &N,
    parser: &mut Parser<'_>,
) -> Result<Subtree, Failure>
    requires { N.IsReady nested.now }
    ensures reads { Reads Holds parser.old parser.new result (given_yield context.entry.source.now (N.readers nested.now context.entry.source.now)) }
{
    let here = position_here(context, parser);
    parser.bump();
    let given = in_brackets(context, nested, parser)?;
    if given.has_block() {
        return Err(Failure::Syntax);
    }
    Ok(yield_with(here, given.arguments, given.spread))
}

/// `super`
pub fn super_call<N: Nested>(
    context: Context<'_>,
    nested: &N,
    parser: &mut Parser<'_>,
    do_owner: DoBlockOwner,
) -> Result<Subtree, Failure>
    requires { N.IsReady nested.now }
    ensures reads { Reads Holds parser.old parser.new result (read_super context.entry.source.now (N.readers nested.now context.entry.source.now) (do_owner_of do_owner)) }
{
    if opens_behind(context, parser) {
        return given_super(context, nested, parser, do_owner);
    }
    if arguments_behind(context, parser) {
        return Err(Failure::Syntax);
    }
    lone_super(context, nested, parser, do_owner)
}

// `super` with brackets.
fn given_super<N: Nested>(
    context: Context<'_>,
    nested: &N,
    parser: &mut Parser<'_>,
    do_owner: DoBlockOwner,
) -> Result<Subtree, Failure>
    requires { N.IsReady nested.now }
    ensures reads { Reads Holds parser.old parser.new result (given_super context.entry.source.now (N.readers nested.now context.entry.source.now) (do_owner_of do_owner)) }
{
    let here = position_here(context, parser);
    parser.bump();
    let given = in_brackets(context, nested, parser)?;
    let has_block = given.has_block();
    let ArgumentParts {
        arguments,
        spread,
        value,
        block,
    } = given;
    let block = call_block(context, nested, parser, do_owner, has_block, block)?;
    Ok(super_with(here, arguments, spread, value, block))
}

// `super` without brackets.
fn lone_super<N: Nested>(
    context: Context<'_>,
    nested: &N,
    parser: &mut Parser<'_>,
    do_owner: DoBlockOwner,
) -> Result<Subtree, Failure>
    requires { N.IsReady nested.now }
    ensures reads { Reads Holds parser.old parser.new result (lone_super context.entry.source.now (N.readers nested.now context.entry.source.now) (do_owner_of do_owner)) }
{
    let here = position_here(context, parser);
    parser.bump();
    let block = call_block(
        context,
        nested,
        parser,
        do_owner,
        false,
        ElseSubtree::none(),
    )?;
    Ok(bare_super(here, block))
}

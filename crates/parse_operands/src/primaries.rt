//! Operands alone.
ghost use Rattle.std.specs.Prelude.{◌≡◌};
ghost use Rattle.ruby_tree.specs.Rules.{front};
ghost use Rattle.token_lookahead.specs.Lookaheads.{do_owner_of};
ghost use Rattle.tree_builder.specs.Subtrees.{Holds};
ghost use Rattle.reference_parser.specs.ReadOperands.{read_primary};
ghost use Rattle.parse_operands.specs.Literals.{held_by};
ghost use Rattle.parse_state.specs.Gives.{Reads};

use crate::behind::{position_here, tokens_here};
use crate::ends::leaf;
use crate::literals::{literal, symbol_list, symbol_named, word_list};
use crate::marks::mark;
use crate::names::{constant, global_variable, instance_variable, name};
use crate::words::word;
use parse_state::{Context, Failure, Nested, Parser};
use token_lookahead::DoBlockOwner;
use tree_builder::{Subtree, integer};

/// An operand, up to what stands behind it.
pub fn primary<N: Nested>(
    context: Context<'_>,
    nested: &N,
    parser: &mut Parser<'_>,
    do_owner: DoBlockOwner,
) -> Result<Subtree, Failure>
    requires { N.IsReady nested.now }
    ensures reads { Reads Holds parser.old parser.new result (read_primary context.entry.source.now (N.readers nested.now context.entry.source.now) (do_owner_of do_owner)) }
{
    let tokens = tokens_here(parser);
    if tokens.is_name() {
        return name(context, nested, parser, do_owner);
    }
    if tokens.is_constant() {
        return constant(context, nested, parser, do_owner);
    }
    if tokens.is_variable() {
        return instance_variable(context, parser);
    }
    if tokens.is_global() {
        return global_variable(context, parser);
    }
    if tokens.is_any_word() {
        return word(context, nested, parser, do_owner);
    }
    if tokens.is_any_mark() {
        return mark(context, nested, parser, do_owner);
    }
    held(context, nested, parser)
}

// An operand that its first token holds.
fn held<N: Nested>(
    context: Context<'_>,
    nested: &N,
    parser: &mut Parser<'_>,
) -> Result<Subtree, Failure>
    requires { N.IsReady nested.now }
    ensures reads { Reads Holds parser.old parser.new result (λ w s. held_by context.entry.source.now (N.readers nested.now context.entry.source.now) w s (front w)) }
{
    let here = position_here(context, parser);
    let tokens = tokens_here(parser);
    if let Some(value) = tokens.integer() {
        return leaf(parser, integer(here, value));
    }
    if let Some(parts) = tokens.literal() {
        return literal(context, nested, parser, parts);
    }
    if let Some(text) = tokens.symbol() {
        return symbol_named(context, parser, text);
    }
    if let Some(words) = tokens.words() {
        return word_list(context, parser, words);
    }
    if let Some(texts) = tokens.symbols() {
        return symbol_list(context, parser, texts);
    }
    Err(Failure::Syntax)
}

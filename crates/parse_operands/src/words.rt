//! Operands that begin with a word of the language.
ghost use Rattle.std.specs.Prelude.{◌≡◌};
ghost use Rattle.token_lookahead.specs.Lookaheads.{do_owner_of};
ghost use Rattle.tree_builder.specs.Subtrees.{Holds};
ghost use Rattle.reference_parser.specs.ReadOperands.{read_word, read_form, block_form_at};
ghost use Rattle.parse_state.specs.Gives.{Reads};

use crate::behind::position_here;
use crate::definitions::{class_definition, method_definition, module_definition};
use crate::ends::leaf;
use crate::forms::{begun, case, choice, looped};
use crate::names::{super_call, yielded};
use parse_state::{Context, Failure, Nested, Parser};
use token_lookahead::DoBlockOwner;
use tree_builder::{
    Subtree, false_value, file_name, folder_name, line_number, nil_value, retry, self_value,
    true_value,
};

/// What begins with a word of the language.
pub fn word<N: Nested>(
    context: Context<'_>,
    nested: &N,
    parser: &mut Parser<'_>,
    do_owner: DoBlockOwner,
) -> Result<Subtree, Failure>
    requires { N.IsReady nested.now }
    ensures reads { Reads Holds parser.old parser.new result (read_word context.entry.source.now (N.readers nested.now context.entry.source.now) (do_owner_of do_owner)) }
{
    let here = position_here(context, parser);
    if parser.is_word(context, "nil") {
        return leaf(parser, nil_value(here));
    }
    if parser.is_word(context, "true") {
        return leaf(parser, true_value(here));
    }
    if parser.is_word(context, "false") {
        return leaf(parser, false_value(here));
    }
    if parser.is_word(context, "self") {
        return leaf(parser, self_value(here));
    }
    if parser.is_word(context, "__FILE__") {
        return leaf(parser, file_name(here));
    }
    if parser.is_word(context, "__dir__") {
        return leaf(parser, folder_name(here));
    }
    if parser.is_word(context, "__LINE__") {
        return leaf(parser, line_number(here));
    }
    if parser.is_word(context, "retry") {
        return leaf(parser, retry(here));
    }
    form(context, nested, parser, do_owner)
}

// A word with parts.
fn form<N: Nested>(
    context: Context<'_>,
    nested: &N,
    parser: &mut Parser<'_>,
    do_owner: DoBlockOwner,
) -> Result<Subtree, Failure>
    requires { N.IsReady nested.now }
    ensures reads { Reads Holds parser.old parser.new result (read_form context.entry.source.now (N.readers nested.now context.entry.source.now) (do_owner_of do_owner)) }
{
    if parser.is_word(context, "yield") {
        return yielded(context, nested, parser);
    }
    if parser.is_word(context, "super") {
        return super_call(context, nested, parser, do_owner);
    }
    if parser.is_word(context, "if") {
        return choice(context, nested, parser, do_owner, true);
    }
    if parser.is_word(context, "unless") {
        return choice(context, nested, parser, do_owner, false);
    }
    if parser.is_word(context, "while") {
        return looped(context, nested, parser, do_owner, false);
    }
    if parser.is_word(context, "until") {
        return looped(context, nested, parser, do_owner, true);
    }
    block_form(context, nested, parser, do_owner)
}

// `begin`, `case` or a definition.
fn block_form<N: Nested>(
    context: Context<'_>,
    nested: &N,
    parser: &mut Parser<'_>,
    do_owner: DoBlockOwner,
) -> Result<Subtree, Failure>
    requires { N.IsReady nested.now }
    ensures reads { Reads Holds parser.old parser.new result (block_form_at context.entry.source.now (N.readers nested.now context.entry.source.now) (do_owner_of do_owner)) }
{
    if parser.is_word(context, "begin") {
        return begun(context, nested, parser, do_owner);
    }
    if parser.is_word(context, "case") {
        return case(context, nested, parser, do_owner);
    }
    if parser.is_word(context, "def") {
        return method_definition(context, nested, parser, do_owner);
    }
    if parser.is_word(context, "class") {
        return class_definition(context, nested, parser, do_owner);
    }
    if parser.is_word(context, "module") {
        return module_definition(context, nested, parser, do_owner);
    }
    Err(Failure::Syntax)
}

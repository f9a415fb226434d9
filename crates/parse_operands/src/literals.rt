//! Literals: texts, symbols, and lists of words.
ghost use Rattle.std.specs.Prelude.{◌≡◌, [], List, map, Some, None};
ghost use Rattle.ruby_lexer.specs.Bytes.{Bytes};
ghost use Rattle.ruby_lexer.specs.Forms.{text_of};
ghost use Rattle.ruby_lexer.specs.Pieces.{Toks, seen_parts};
ghost use Rattle.ruby_tree.specs.Tree.{at, array, symbol};
ghost use Rattle.ruby_tree.specs.Build.{texts_at, symbols_at};
ghost use Rattle.ruby_tree.specs.Rules.{Scope, next, position};
ghost use Rattle.tree_builder.specs.Subtrees.{Holds, AreNamed};
ghost use Rattle.reference_parser.specs.Answers.{taken};
ghost use Rattle.reference_parser.specs.ReadOperands.{literal_by};
ghost use Rattle.parse_state.specs.Standing.{At};
ghost use Rattle.parse_state.specs.Gives.{Gives, Reads};

use crate::behind::position_here;
use crate::ends::leaf;
use bs_outside::Bytes;
use parse_parts::text_parts;
use parse_state::{Context, Failure, Nested, Parser};
use ruby_lexer::Part;
use ruby_tree::Name;
use token_lookahead::plain_text;
use tree_builder::{Subtree, array, joined, symbol, symbols_at, text, texts_at};

/// A text of these parts.
pub fn literal<'a, N: Nested>(
    context: Context<'_>,
    nested: &N,
    parser: &mut Parser<'a>,
    parts: &'a [Part],
) -> Result<Subtree, Failure>
    requires { N.IsReady nested.now }
    ensures reads { Reads Holds parser.old parser.new result (λ w s. literal_by context.entry.source.now (N.readers nested.now context.entry.source.now) w s (seen_parts parts.entry.now) (text_of (seen_parts parts.entry.now))) }
{
    let here = position_here(context, parser);
    let plain = plain_text(context.alloc, parts)?;
    match plain {
        Some(bytes) => leaf(parser, text(here, bytes)),
        None => joined_text(context, nested, parser, parts),
    }
}

// A text with code.
fn joined_text<'a, N: Nested>(
    context: Context<'_>,
    nested: &N,
    parser: &mut Parser<'a>,
    parts: &'a [Part],
) -> Result<Subtree, Failure>
    requires { N.IsReady nested.now }
    ensures reads { Reads Holds parser.old parser.new result (λ w s. literal_by context.entry.source.now (N.readers nested.now context.entry.source.now) w s (seen_parts parts.entry.now) None) }
{
    let here = position_here(context, parser);
    let pieces = text_parts(context, nested, parser, parts)?;
    leaf(parser, joined(here, pieces))
}

/// A symbol of this name.
pub fn symbol_named(
    context: Context<'_>,
    parser: &mut Parser<'_>,
    text: &[u8],
) -> Result<Subtree, Failure>
    ensures reads { Reads Holds parser.old parser.new result (λ w s. taken (at (position w) (symbol text.now)) (next w) s) }
{
    let here = position_here(context, parser);
    let name = parser.intern(context, text)?;
    leaf(parser, symbol(here, name))
}

/// A list of these words.
pub fn word_list(
    context: Context<'_>,
    parser: &mut Parser<'_>,
    words: &[Bytes],
) -> Result<Subtree, Failure>
    ensures reads { Reads Holds parser.old parser.new result (λ w s. taken (at (position w) (array (texts_at (position w) words.now) [])) (next w) s) }
{
    let here = position_here(context, parser);
    let elements = texts_at(context.alloc, here, words)?;
    leaf(parser, array(here, elements, Vec::new(context.alloc)))
}

/// A list of the symbols of these names.
pub fn symbol_list(
    context: Context<'_>,
    parser: &mut Parser<'_>,
    texts: &[Bytes],
) -> Result<Subtree, Failure>
    ensures reads { Reads Holds parser.old parser.new result (λ w s. taken (at (position w) (array (symbols_at (position w) texts.now) [])) (next w) s) }
{
    let here = position_here(context, parser);
    let names = names_of(context, parser, texts)?;
    let listed = names.as_slice();
    let elements = symbols_at(context.alloc, here, listed)?;
    leaf(parser, array(here, elements, Vec::new(context.alloc)))
}

// The names of texts.
fn names_of(
    context: Context<'_>,
    parser: &mut Parser<'_>,
    texts: &[Bytes],
) -> Result<Vec<Name>, Failure>
    ensures gives { (w : Toks) (s : Scope) → At parser.old w s → Gives (λ T names fs. AreNamed T names.items fs) parser.old parser.new result (taken texts.now w s) }
{
    let mut names = Vec::new(context.alloc);
    for text in texts {
        let name = parser.intern(context, text.as_slice())?;
        names.push(name)?;
    }
    Ok(names)
}

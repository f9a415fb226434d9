//! What is passed behind `&`.
ghost use Rattle.std.specs.Prelude.{◌≡◌, Some, None};
ghost use Rattle.ruby_lexer.specs.Pieces.{Toks, seen_all};
ghost use Rattle.ruby_lexer.specs.Bytes.{Bytes};
ghost use Rattle.ruby_tree.specs.Tree.{Tree};
ghost use Rattle.ruby_tree.specs.Rules.{Scope};
ghost use Rattle.ruby_tree.specs.Build.{symbol_of};
ghost use Rattle.token_lookahead.specs.Lookaheads.{do_owner_of};
ghost use Rattle.tree_builder.specs.Subtrees.{Holds, IsNamed};
ghost use Rattle.reference_parser.specs.Answers.{taken};
ghost use Rattle.reference_parser.specs.ReadItems.{passing_by, read_passed};
ghost use Rattle.parse_state.specs.Standing.{At};
ghost use Rattle.parse_state.specs.Gives.{Gives, Reads};
ghost use Rattle.parse_parts.specs.Items.{HoldsPassing};

use crate::given::PassingParts;
use parse_state::{Context, Failure, Nested, Parser};
use ruby_tree::Name;
use token_lookahead::{DoBlockOwner, Lookahead};
use tree_builder::{ElseSubtree, Subtree, symbol_block, symbol_name};

// The block of a symbol, whose `&` stands at the lookahead.
fn as_block(
    context: Context<'_>,
    parser: &mut Parser<'_>,
    lookahead: Lookahead<'_>,
    name: Name,
) -> Result<PassingParts, Failure>
    ensures gives { (w : Toks) (s : Scope) (a : Tree) (f : Bytes) → At parser.old w s → IsNamed parser.old.symbols name f → Gives HoldsPassing parser.old parser.new result (taken (passing_by (seen_all lookahead.entry.rest.now) a (Some f)) w s) }
{
    let here = lookahead.position();
    let call = lookahead.position_with(lookahead.next());
    let variable = parser.intern(context, b"x")?;
    let block = symbol_block(context.alloc, here, call, variable, name)?;
    let block = ElseSubtree::some(context.alloc, block)?;
    let value = ElseSubtree::none();
    Ok(PassingParts { value, block })
}

// A value.
fn as_value(
    context: Context<'_>,
    parser: &mut Parser<'_>,
    part: Subtree,
) -> Result<PassingParts, Failure>
    ensures gives { (w o : Toks) (s : Scope) (a : Tree) → At parser.old w s → Holds parser.old.symbols part a → Gives HoldsPassing parser.old parser.new result (taken (passing_by o a None) w s) }
{
    let value = ElseSubtree::some(context.alloc, part)?;
    let block = ElseSubtree::none();
    Ok(PassingParts { value, block })
}

// A symbol is passed as its block.
fn by_symbol(
    context: Context<'_>,
    parser: &mut Parser<'_>,
    lookahead: Lookahead<'_>,
    part: Subtree,
) -> Result<PassingParts, Failure>
    ensures gives { (w : Toks) (s : Scope) (a : Tree) → At parser.old w s → Holds parser.old.symbols part a → Gives HoldsPassing parser.old parser.new result (taken (passing_by (seen_all lookahead.entry.rest.now) a (symbol_of a)) w s) }
{
    match symbol_name(&part) {
        Some(name) => as_block(context, parser, lookahead, name),
        None => as_value(context, parser, part),
    }
}

// `&`, and what is passed.
pub fn passed<N: Nested>(
    context: Context<'_>,
    nested: &N,
    parser: &mut Parser<'_>,
    do_owner: DoBlockOwner,
) -> Result<PassingParts, Failure>
    requires { N.IsReady nested.now }
    ensures reads { Reads HoldsPassing parser.old parser.new result (read_passed context.entry.source.now (N.readers nested.now context.entry.source.now) (do_owner_of do_owner)) }
{
    let lookahead = parser.lookahead(context);
    parser.bump();
    let part = nested.argument(context, parser, do_owner)?;
    by_symbol(context, parser, lookahead, part)
}

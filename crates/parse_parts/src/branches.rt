//! What chooses among statements: `elsif`, `else` and `when`; and the superclass of a class.
ghost use Rattle.ruby_lexer.specs.Pieces.{Toks};
ghost use Rattle.ruby_tree.specs.Rules.{Scope};
ghost use Rattle.reference_parser.specs.Answers.{Parse};
ghost use Rattle.parse_state.specs.Standing.{At};
ghost use Rattle.parse_parts.specs.Turns.{Turns};
ghost use Rattle.ruby_tree.specs.Tree.{Whens};
ghost use Rattle.token_lookahead.specs.Lookaheads.{do_owner_of};
ghost use Rattle.tree_builder.specs.Subtrees.{HoldsOther, HoldsWhens};
ghost use Rattle.reference_parser.specs.ReadBodies.{read_else_branches, when_list, read_superclass};
ghost use Rattle.parse_state.specs.Gives.{Reads, ReadsWithin};
ghost use Rattle.parse_parts.specs.Parts.{elsif_from, when_turn};

use crate::clauses::else_part;
use crate::several;
use parse_state::{Context, Failure, Nested, Parser};
use token_lookahead::DoBlockOwner;
use tree_builder::{ElseSubtree, WhenSubtrees, if_else};

/// What stands behind `elsif` or `else`, where one of them stands here.
pub fn else_branches<N: Nested>(
    context: Context<'_>,
    nested: &N,
    parser: &mut Parser<'_>,
    do_owner: DoBlockOwner,
) -> Result<ElseSubtree, Failure>
    requires { N.IsReady nested.now }
    ensures reads { Reads HoldsOther parser.old parser.new result (read_else_branches context.entry.source.now (N.readers nested.now context.entry.source.now) (do_owner_of do_owner)) }
{
    if parser.is_word(context, "elsif") {
        return elsif(context, nested, parser, do_owner);
    }
    else_part(context, nested, parser, do_owner)
}

// `elsif`, with all that stands behind it.
fn elsif<N: Nested>(
    context: Context<'_>,
    nested: &N,
    parser: &mut Parser<'_>,
    do_owner: DoBlockOwner,
) -> Result<ElseSubtree, Failure>
    requires { N.IsReady nested.now }
    ensures reads { Reads HoldsOther parser.old parser.new result (elsif_from context.entry.source.now (N.readers nested.now context.entry.source.now) (do_owner_of do_owner)) }
{
    let here = parser.lookahead(context).position();
    parser.bump();
    let condition = nested.expression(context, parser, do_owner)?;
    parser.skip_then(context)?;
    let chosen = nested.statements(context, parser, do_owner)?;
    let other = nested.else_branches(context, parser, do_owner)?;
    let part = if_else(context.alloc, here, condition, chosen, other)?;
    Ok(ElseSubtree::some(context.alloc, part)?)
}

/// The branches of a `case`, of which the first begins here.
pub fn when_list<N: Nested>(
    context: Context<'_>,
    nested: &N,
    parser: &mut Parser<'_>,
    do_owner: DoBlockOwner,
) -> Result<WhenSubtrees, Failure>
    requires { N.IsReady nested.now }
    ensures reads { ReadsWithin HoldsWhens parser.old parser.new result (λ m. when_list context.entry.source.now (N.readers nested.now context.entry.source.now) m (do_owner_of do_owner)) }
{
    let mut whens = WhenSubtrees::new(context.alloc);
    parser.bump();
    while one_when(context, nested, parser, do_owner, &mut whens)? {}
    Ok(whens)
}

// One branch more, behind its word, and whether another follows, whose word is skipped.
fn one_when<N: Nested>(
    context: Context<'_>,
    nested: &N,
    parser: &mut Parser<'_>,
    do_owner: DoBlockOwner,
    whens: &mut WhenSubtrees,
) -> Result<bool, Failure>
    requires { N.IsReady nested.now }
    ensures turns { (w : Toks) (s : Scope) (ws : Whens) (further : Whens → Parse Whens) → At parser.old w s → HoldsWhens parser.old.symbols whens.old ws → Turns HoldsWhens parser.old parser.new whens.new further result (when_turn context.entry.source.now (N.readers nested.now context.entry.source.now) (do_owner_of do_owner) ws further w s) }
{
    let values = several(context, nested, parser, do_owner)?;
    parser.skip_then(context)?;
    let code = nested.statements(context, parser, do_owner)?;
    whens.push(values, code)?;
    if parser.is_word(context, "when") {
        parser.bump();
        return Ok(true);
    }
    Ok(false)
}

/// The superclass of a class, where `<` stands here.
pub fn superclass<N: Nested>(
    context: Context<'_>,
    nested: &N,
    parser: &mut Parser<'_>,
    do_owner: DoBlockOwner,
) -> Result<ElseSubtree, Failure>
    requires { N.IsReady nested.now }
    ensures reads { Reads HoldsOther parser.old parser.new result (read_superclass context.entry.source.now (N.readers nested.now context.entry.source.now) (do_owner_of do_owner)) }
{
    if parser.is_mark(context, "<") {
        parser.bump();
        let part = nested.argument(context, parser, do_owner)?;
        return Ok(ElseSubtree::some(context.alloc, part)?);
    }
    Ok(ElseSubtree::none())
}

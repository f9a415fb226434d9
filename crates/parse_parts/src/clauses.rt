//! Statements with their rescue clauses, and what is ensured behind them.
ghost use Rattle.ruby_lexer.specs.Pieces.{Toks};
ghost use Rattle.ruby_tree.specs.Rules.{Scope};
ghost use Rattle.reference_parser.specs.Answers.{Parse};
ghost use Rattle.parse_state.specs.Standing.{At};
ghost use Rattle.parse_parts.specs.Turns.{Turns};
ghost use Rattle.ruby_tree.specs.Tree.{Tree, Rescues};
ghost use Rattle.ruby_tree.specs.SourcePositions.{position_of};
ghost use Rattle.token_lookahead.specs.Lookaheads.{do_owner_of};
ghost use Rattle.tree_builder.specs.Subtrees.{Holds, HoldsOther, HoldsRescues};
ghost use Rattle.reference_parser.specs.ReadBodies.{clauses, read_else, rescued_body, read_body};
ghost use Rattle.parse_state.specs.Gives.{Reads, ReadsWithin};
ghost use Rattle.parse_parts.specs.Parts.{rescued_from, ensured_from, clause_turn};

use crate::{classes, exception_name};
use parse_state::{Context, Failure, Nested, Parser};
use ruby_tree::SourcePosition;
use token_lookahead::DoBlockOwner;
use tree_builder::{
    ElseSubtree, RescueSubtrees, Subtree, ensure, ensure_sequence, rescue, rescue_sequence,
};

/// The statements of a body, which begins here, with their rescue clauses and what is ensured.
pub fn body<N: Nested>(
    context: Context<'_>,
    nested: &N,
    parser: &mut Parser<'_>,
    do_owner: DoBlockOwner,
    here: SourcePosition,
) -> Result<Subtree, Failure>
    requires { N.IsReady nested.now }
    ensures reads { Reads Holds parser.old parser.new result (read_body context.entry.source.now (N.readers nested.now context.entry.source.now) (do_owner_of do_owner) (position_of here)) }
{
    let tried = rescued_body(context, nested, parser, do_owner, here)?;
    if parser.is_word(context, "ensure") {
        return ensured(context, nested, parser, do_owner, here, tried);
    }
    Ok(tried)
}

// The statements tried, and what is ensured, which stands in no rescue clause.
fn ensured<N: Nested>(
    context: Context<'_>,
    nested: &N,
    parser: &mut Parser<'_>,
    do_owner: DoBlockOwner,
    here: SourcePosition,
    tried: Subtree,
) -> Result<Subtree, Failure>
    requires { N.IsReady nested.now }
    ensures reads { (t : Tree) → Holds parser.old.symbols tried t → Reads Holds parser.old parser.new result (ensured_from context.entry.source.now (N.readers nested.now context.entry.source.now) (do_owner_of do_owner) (position_of here) t) }
{
    let clause = parser.lookahead(context).position();
    let in_clause = parser.in_clause;
    parser.bump();
    parser.leave_clause();
    let last = nested.statements(context, parser, do_owner)?;
    parser.go_behind(in_clause);
    let last = ensure_sequence(context.alloc, clause, last)?;
    Ok(ensure(context.alloc, here, tried, last)?)
}

// Statements with their rescue clauses, where there are some.
fn rescued_body<N: Nested>(
    context: Context<'_>,
    nested: &N,
    parser: &mut Parser<'_>,
    do_owner: DoBlockOwner,
    here: SourcePosition,
) -> Result<Subtree, Failure>
    requires { N.IsReady nested.now }
    ensures reads { Reads Holds parser.old parser.new result (rescued_body context.entry.source.now (N.readers nested.now context.entry.source.now) (do_owner_of do_owner) (position_of here)) }
{
    let tried = nested.statements(context, parser, do_owner)?;
    if parser.is_word(context, "rescue") {
        return rescued(context, nested, parser, do_owner, here, tried);
    }
    Ok(tried)
}

// The statements tried, with their rescue clauses and what stands behind `else`.
fn rescued<N: Nested>(
    context: Context<'_>,
    nested: &N,
    parser: &mut Parser<'_>,
    do_owner: DoBlockOwner,
    here: SourcePosition,
    tried: Subtree,
) -> Result<Subtree, Failure>
    requires { N.IsReady nested.now }
    ensures reads { (t : Tree) → Holds parser.old.symbols tried t → Reads Holds parser.old parser.new result (rescued_from context.entry.source.now (N.readers nested.now context.entry.source.now) (do_owner_of do_owner) (position_of here) t) }
{
    let clause = parser.lookahead(context).position();
    let saved = clauses(context, nested, parser, do_owner)?;
    let other = else_part(context, nested, parser, do_owner)?;
    let saved = rescue_sequence(clause, saved);
    Ok(rescue(context.alloc, here, tried, other, saved)?)
}

// The rescue clauses, of which the first begins here.
fn clauses<N: Nested>(
    context: Context<'_>,
    nested: &N,
    parser: &mut Parser<'_>,
    do_owner: DoBlockOwner,
) -> Result<RescueSubtrees, Failure>
    requires { N.IsReady nested.now }
    ensures reads { ReadsWithin HoldsRescues parser.old parser.new result (λ m. clauses context.entry.source.now (N.readers nested.now context.entry.source.now) m (do_owner_of do_owner)) }
{
    let mut saved = RescueSubtrees::new(context.alloc);
    parser.bump();
    while one_clause(context, nested, parser, do_owner, &mut saved)? {}
    Ok(saved)
}

// One clause more, behind its word, and whether another follows, whose word is skipped.
fn one_clause<N: Nested>(
    context: Context<'_>,
    nested: &N,
    parser: &mut Parser<'_>,
    do_owner: DoBlockOwner,
    saved: &mut RescueSubtrees,
) -> Result<bool, Failure>
    requires { N.IsReady nested.now }
    ensures turns { (w : Toks) (s : Scope) (cs : Rescues) (further : Rescues → Parse Rescues) → At parser.old w s → HoldsRescues parser.old.symbols saved.old cs → Turns HoldsRescues parser.old parser.new saved.new further result (clause_turn context.entry.source.now (N.readers nested.now context.entry.source.now) (do_owner_of do_owner) cs further w s) }
{
    let in_clause = parser.in_clause;
    parser.enter_clause();
    let classes = classes(context, nested, parser, do_owner)?;
    let name = exception_name(context, parser)?;
    parser.skip_then(context)?;
    let code = nested.statements(context, parser, do_owner)?;
    parser.go_behind(in_clause);
    saved.push(classes, name, code)?;
    if parser.is_word(context, "rescue") {
        parser.bump();
        return Ok(true);
    }
    Ok(false)
}

/// What stands behind `else`, where it stands here.
pub fn else_part<N: Nested>(
    context: Context<'_>,
    nested: &N,
    parser: &mut Parser<'_>,
    do_owner: DoBlockOwner,
) -> Result<ElseSubtree, Failure>
    requires { N.IsReady nested.now }
    ensures reads { Reads HoldsOther parser.old parser.new result (read_else context.entry.source.now (N.readers nested.now context.entry.source.now) (do_owner_of do_owner)) }
{
    if parser.is_word(context, "else") {
        parser.bump();
        let part = nested.statements(context, parser, do_owner)?;
        return Ok(ElseSubtree::some(context.alloc, part)?);
    }
    Ok(ElseSubtree::none())
}

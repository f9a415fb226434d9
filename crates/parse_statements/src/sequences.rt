//! Statements.
ghost use Rattle.std.specs.Prelude.{◌≡◌, ◌≤◌, ◌&&◌, ◌||◌};
ghost use Rattle.ruby_lexer.specs.Pieces.{Toks, seen_all};
ghost use Rattle.ruby_tree.specs.Names.{Texts};
ghost use Rattle.ruby_tree.specs.Tree.{Tree, Trees};
ghost use Rattle.ruby_tree.specs.Depth.{depth};
ghost use Rattle.ruby_tree.specs.Build.{is_body};
ghost use Rattle.ruby_tree.specs.Rules.{Scope, begins_statement};
ghost use Rattle.token_lookahead.specs.Lookaheads.{do_owner_of};
ghost use Rattle.tree_builder.specs.Subtrees.{Holds, HoldsAll};
ghost use Rattle.reference_parser.specs.Answers.{Parse};
ghost use Rattle.reference_parser.specs.Fronts.{is_newline};
ghost use Rattle.reference_parser.specs.ReadStatements.{read_stmt, stmt_list, read_stmts};
ghost use Rattle.parse_state.specs.Standing.{At};
ghost use Rattle.parse_state.specs.Gives.{Reads, ReadsWithin};
ghost use Rattle.parse_parts.specs.Turns.{Turns};
ghost use Rattle.parse_statements.specs.Statements.{statement_turn, gathered_turn};

use crate::modifiers::modified;
use crate::several::head;
use parse_state::{Context, Failure, Operators, Parser};
use token_lookahead::{DoBlockOwner, Lookahead};
use tree_builder::{ElseSubtree, Subtree, Subtrees, or_empty};

/// A statement with its modifiers.
///
/// # Errors
///
/// Where the grammar derives none here, where symbols nest too deep, and where there is not memory enough.
pub fn statement<N: Operators>(
    context: Context<'_>,
    nested: &N,
    parser: &mut Parser<'_>,
    do_owner: DoBlockOwner,
) -> Result<Subtree, Failure>
    requires { N.IsReady nested.now }
    ensures reads { Reads Holds parser.old parser.new result (read_stmt context.entry.source.now (N.readers nested.now context.entry.source.now) (do_owner_of do_owner)) }
{
    let here = parser.lookahead(context).position();
    let begins = parser.is_word(context, "begin");
    let part = head(context, nested, parser, do_owner)?;
    let is_body = is_begun(begins, &part);
    modified(context, nested, parser, do_owner, here, is_body, part)
}

// Whether a statement is a body between `begin` and `end`. It is told whether `begin` stands before it.
fn is_begun(begins: bool, part: &Subtree) -> bool
    ensures { (T : Texts) (t : Tree) → Holds T part.now t → depth t ≤ 200 → result ≡ (begins && is_body t) }
{
    begins && tree_builder::is_body(part)
}

/// Statements, with newlines between them.
///
/// # Errors
///
/// Where the grammar derives none here, where symbols nest too deep, and where there is not memory enough.
pub fn statements<N: Operators>(
    context: Context<'_>,
    nested: &N,
    parser: &mut Parser<'_>,
    do_owner: DoBlockOwner,
) -> Result<Subtree, Failure>
    requires { N.IsReady nested.now }
    ensures reads { Reads Holds parser.old parser.new result (read_stmts context.entry.source.now (N.readers nested.now context.entry.source.now) (do_owner_of do_owner)) }
{
    let lookahead = parser.lookahead(context);
    if begins_statements(lookahead) {
        let here = lookahead.position();
        let parts = statement_list(context, nested, parser, do_owner)?;
        return Ok(tree_builder::statements(here, parts));
    }
    Ok(or_empty(context.alloc, ElseSubtree::none()))
}

// Whether a newline or a statement begins here.
fn begins_statements(lookahead: Lookahead<'_>) -> bool
    ensures { result ≡ (is_newline (seen_all lookahead.entry.rest.now) || begins_statement lookahead.entry.source.now (seen_all lookahead.entry.rest.now)) }
{
    lookahead.is_newline() || lookahead.begins_statement()
}

// Statements and newlines, as many as there are.
fn statement_list<N: Operators>(
    context: Context<'_>,
    nested: &N,
    parser: &mut Parser<'_>,
    do_owner: DoBlockOwner,
) -> Result<Subtrees, Failure>
    requires { N.IsReady nested.now }
    ensures reads { ReadsWithin HoldsAll parser.old parser.new result (λ m. stmt_list context.entry.source.now (N.readers nested.now context.entry.source.now) m (do_owner_of do_owner)) }
{
    let mut parts = Subtrees::new(context.alloc);
    while statement_turn(context, nested, parser, do_owner, &mut parts)? {}
    Ok(parts)
}

// A newline or one more statement, and whether more may follow.
fn statement_turn<N: Operators>(
    context: Context<'_>,
    nested: &N,
    parser: &mut Parser<'_>,
    do_owner: DoBlockOwner,
    parts: &mut Subtrees,
) -> Result<bool, Failure>
    requires { N.IsReady nested.now }
    ensures turns { (w : Toks) (s : Scope) (ts : Trees) (further : Trees → Parse Trees) → At parser.old w s → HoldsAll parser.old.symbols parts.old ts → Turns HoldsAll parser.old parser.new parts.new further result (statement_turn context.entry.source.now (N.readers nested.now context.entry.source.now) (do_owner_of do_owner) ts further w s) }
{
    let lookahead = parser.lookahead(context);
    if lookahead.is_newline() {
        parser.bump();
        return Ok(true);
    }
    if lookahead.begins_statement() {
        return gathered_turn(context, nested, parser, do_owner, parts);
    }
    Ok(false)
}

// One more statement, and whether a newline stands behind it.
fn gathered_turn<N: Operators>(
    context: Context<'_>,
    nested: &N,
    parser: &mut Parser<'_>,
    do_owner: DoBlockOwner,
    parts: &mut Subtrees,
) -> Result<bool, Failure>
    requires { N.IsReady nested.now }
    ensures turns { (w : Toks) (s : Scope) (ts : Trees) (further : Trees → Parse Trees) → At parser.old w s → HoldsAll parser.old.symbols parts.old ts → Turns HoldsAll parser.old parser.new parts.new further result (gathered_turn context.entry.source.now (N.readers nested.now context.entry.source.now) (do_owner_of do_owner) ts further w s) }
{
    let part = statement(context, nested, parser, do_owner)?;
    parts.push(part)?;
    if parser.lookahead(context).is_newline() {
        parser.bump();
        return Ok(true);
    }
    Ok(false)
}

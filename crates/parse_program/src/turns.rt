//! One turn of the walk: a newline, a statement with its newline, or a header.
ghost use Rattle.std.specs.Prelude.{◌≡◌, codes, length, true, false, Err};
ghost use Rattle.ruby_lexer.specs.Pieces.{Toks};
ghost use Rattle.ruby_tree.specs.Rules.{Scope, own};
ghost use Rattle.ruby_tree.specs.Rules as test;
ghost use Rattle.reference_parser.specs.ReadStatements.{read_stmt};
ghost use Rattle.reference_parser.specs.Stops.{class_header, header_at};
ghost use Rattle.parse_state.specs.Standing.{At};
ghost use Rattle.parse_state.specs.Gives.{Reads};
ghost use Rattle.parse_state.specs.declared.failures.Failure.TheVariants as failures;
ghost use Rattle.parse_program.specs.Turn.{IsAny, Moves, or_else, statement_line, turn_at};

use crate::headers::{enter, skip_class, skip_header};
use parse_state::{Context, Failure, Operators, Parser};
use parse_statements::statement;
use token_lookahead::DoBlockOwner;

/// Goes on over a newline, over a statement with its newline, or, where no such statement stands, over a header, into its body.
///
/// # Errors
///
/// Where none of them stands here, where symbols nest too deep, and where there is not memory enough.
pub(crate) fn turn<N: Operators>(
    context: Context<'_>,
    nested: &N,
    parser: &mut Parser<'_>,
) -> Result<(), Failure>
    requires { N.IsReady nested.now }
    ensures moves { (w : Toks) (s : Scope) → At parser.old w s → Moves (length parser.old.rest.now) parser.new result (turn_at context.entry.source.now (N.readers nested.now context.entry.source.now) w s) }
{
    if parser.lookahead(context).is_newline() {
        parser.bump();
        return Ok(());
    }
    if parser.is_word(context, "class") {
        return class_turn(context, nested, parser);
    }
    plain_turn(context, nested, parser)
}

// The same where `class` stands here. The header is read before the statement, since the locals are lost where a statement fails; where the header fails, so does the statement.
fn class_turn<N: Operators>(
    context: Context<'_>,
    nested: &N,
    parser: &mut Parser<'_>,
) -> Result<(), Failure>
    requires { N.IsReady nested.now }
    ensures moves { (w : Toks) (s : Scope) → At parser.old w s → test.is_word context.entry.source.now (codes "class") w ≡ true → Moves (length parser.old.rest.now) parser.new result (or_else (statement_line context.entry.source.now (N.readers nested.now context.entry.source.now) w s) (class_header context.entry.source.now (N.readers nested.now context.entry.source.now) w s)) }
{
    let place = parser.rest;
    skip_class(context, nested, parser)?;
    let body = parser.rest;
    parser.rest = place;
    let outcome = line(context, nested, parser);
    if is_fault(&outcome) {
        enter(context, parser, body);
        return Ok(());
    }
    outcome
}

// The same where neither a newline nor `class` stands here. No other header looks at the locals.
fn plain_turn<N: Operators>(
    context: Context<'_>,
    nested: &N,
    parser: &mut Parser<'_>,
) -> Result<(), Failure>
    requires { N.IsReady nested.now }
    ensures moves { (w : Toks) (s : Scope) → At parser.old w s → test.is_word context.entry.source.now (codes "class") w ≡ false → Moves (length parser.old.rest.now) parser.new result (or_else (statement_line context.entry.source.now (N.readers nested.now context.entry.source.now) w s) (header_at context.entry.source.now (N.readers nested.now context.entry.source.now) w s)) }
{
    let place = parser.rest;
    let outcome = line(context, nested, parser);
    if is_fault(&outcome) {
        enter(context, parser, place);
        return skip_header(context, nested, parser);
    }
    outcome
}

// Whether nothing is derived.
fn is_fault(outcome: &Result<(), Failure>) -> bool
    ensures fault { result ≡ true → outcome.now ≡ Err failures.Syntax }
    ensures other { result ≡ false → outcome.now ≡ Err failures.Syntax → ⊥ }
{
    matches!(outcome, Err(Failure::Syntax))
}

// Goes on over a statement with its newline.
fn line<N: Operators>(
    context: Context<'_>,
    nested: &N,
    parser: &mut Parser<'_>,
) -> Result<(), Failure>
    requires { N.IsReady nested.now }
    ensures moves { (w : Toks) (s : Scope) → At parser.old w s → Moves (length parser.old.rest.now) parser.new result (statement_line context.entry.source.now (N.readers nested.now context.entry.source.now) w s) }
{
    if !parser.lookahead(context).begins_statement() {
        return Err(Failure::Syntax);
    }
    skip_statement(context, nested, parser)?;
    parser.expect_newline(context)
}

// Goes on over a statement.
fn skip_statement<N: Operators>(
    context: Context<'_>,
    nested: &N,
    parser: &mut Parser<'_>,
) -> Result<(), Failure>
    requires { N.IsReady nested.now }
    ensures reads { Reads IsAny parser.old parser.new result (read_stmt context.entry.source.now (N.readers nested.now context.entry.source.now) own) }
{
    statement(context, nested, parser, DoBlockOwner::Own)?;
    Ok(())
}

//! Headers of classes, modules and methods, up to their bodies.
ghost use Rattle.std.specs.Prelude.{◌≡◌, codes, length, true, false};
ghost use Rattle.ruby_lexer.specs.Pieces.{Toks, seen_all};
ghost use Rattle.ruby_tree.specs.Rules.{Scope, fresh, own};
ghost use Rattle.ruby_tree.specs.Rules as test;
ghost use Rattle.reference_parser.specs.ReadItems.{Readers};
ghost use Rattle.reference_parser.specs.ReadBodies.{parameter_list, read_superclass};
ghost use Rattle.reference_parser.specs.Stops.{class_header, module_header, method_header, header_at};
ghost use Rattle.parse_state.specs.Standing.{At};
ghost use Rattle.parse_state.specs.Gives.{Reads};
ghost use Rattle.parse_program.specs.Turn.{IsAny, Moves, kept};

use parse_parts::{parameter_list, superclass};
use parse_state::{Context, Failure, Nested, Parser};
use ruby_lexer::Token;
use token_lookahead::DoBlockOwner;

/// Goes on behind the header of a class, whose word stands here. The locals are those before it.
///
/// # Errors
///
/// Where no header is here, where symbols nest too deep, and where there is not memory enough.
pub(crate) fn skip_class<N: Nested>(
    context: Context<'_>,
    nested: &N,
    parser: &mut Parser<'_>,
) -> Result<(), Failure>
    requires { N.IsReady nested.now }
    ensures moves { (w : Toks) (s : Scope) → At parser.old w s → Moves (length parser.old.rest.now) parser.new result (kept s (class_header context.entry.source.now (N.readers nested.now context.entry.source.now) w s)) }
{
    let count = parser.locals.len();
    let in_clause = parser.in_clause;
    parser.bump();
    if !parser.lookahead(context).is_constant() {
        return Err(Failure::Syntax);
    }
    parser.bump();
    skip_superclass(context, nested, parser)?;
    parser.expect_newline(context)?;
    parser.close_block(count, in_clause);
    Ok(())
}

// Goes on over the superclass of a class, where one is named.
fn skip_superclass<N: Nested>(
    context: Context<'_>,
    nested: &N,
    parser: &mut Parser<'_>,
) -> Result<(), Failure>
    requires { N.IsReady nested.now }
    ensures reads { Reads IsAny parser.old parser.new result (read_superclass context.entry.source.now (N.readers nested.now context.entry.source.now) own) }
{
    superclass(context, nested, parser, DoBlockOwner::Own)?;
    Ok(())
}

/// Goes to a place, into a body that has locals of its own, and none at first.
pub(crate) fn enter<'a>(context: Context<'_>, parser: &mut Parser<'a>, place: &'a [Token])
    ensures at { At parser.new (seen_all place.now) fresh }
    ensures rest { parser.new.rest.now ≡ place.now }
{
    parser.enter_body(context);
    parser.rest = place;
}

/// Goes on behind the header of a module or a method, into its body.
///
/// # Errors
///
/// Where no such header is here, where symbols nest too deep, and where there is not memory enough.
pub(crate) fn skip_header<N: Nested>(
    context: Context<'_>,
    nested: &N,
    parser: &mut Parser<'_>,
) -> Result<(), Failure>
    requires { N.IsReady nested.now }
    ensures moves { (w : Toks) (s : Scope) → At parser.old w fresh → test.is_word context.entry.source.now (codes "class") w ≡ false → Moves (length parser.old.rest.now) parser.new result (header_at context.entry.source.now (N.readers nested.now context.entry.source.now) w s) }
{
    if parser.is_word(context, "module") {
        return skip_module(context, parser);
    }
    if parser.is_word(context, "def") {
        return skip_method(context, nested, parser);
    }
    Err(Failure::Syntax)
}

// Goes on behind the header of a module, whose word stands here.
fn skip_module(context: Context<'_>, parser: &mut Parser<'_>) -> Result<(), Failure>
    ensures moves { (Q : Readers) (w : Toks) (s : Scope) → At parser.old w fresh → Moves (length parser.old.rest.now) parser.new result (module_header context.entry.source.now Q w s) }
{
    parser.bump();
    if !parser.lookahead(context).is_constant() {
        return Err(Failure::Syntax);
    }
    parser.bump();
    parser.expect_newline(context)
}

// Goes on behind the header of a method, whose word stands here.
fn skip_method<N: Nested>(
    context: Context<'_>,
    nested: &N,
    parser: &mut Parser<'_>,
) -> Result<(), Failure>
    requires { N.IsReady nested.now }
    ensures moves { (w : Toks) (s : Scope) → At parser.old w fresh → test.is_word context.entry.source.now (codes "def") w ≡ true → Moves (length parser.old.rest.now) parser.new result (method_header context.entry.source.now (N.readers nested.now context.entry.source.now) w s) }
{
    parser.bump();
    parser.skip_self(context)?;
    parser.method_name(context, true)?;
    skip_parameters(context, nested, parser)
}

// Goes on over the parameters of a method, up to its body.
fn skip_parameters<N: Nested>(
    context: Context<'_>,
    nested: &N,
    parser: &mut Parser<'_>,
) -> Result<(), Failure>
    requires { N.IsReady nested.now }
    ensures reads { Reads IsAny parser.old parser.new result (parameter_list context.entry.source.now (N.readers nested.now context.entry.source.now) own) }
{
    parameter_list(context, nested, parser, DoBlockOwner::Own)?;
    Ok(())
}

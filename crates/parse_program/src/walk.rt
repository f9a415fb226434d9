//! The walk, turn by turn.
ghost use Rattle.std.specs.Prelude.{◌≡◌, None, Some, IfOk, IsErr};
ghost use Rattle.ruby_lexer.specs.Pieces.{Toks, seen_all};
ghost use Rattle.ruby_tree.specs.Rules.{Scope};
ghost use Rattle.reference_parser.specs.Stops.{stops_at};
ghost use Rattle.parse_state.specs.Standing.{At};
ghost use Rattle.parse_state.specs.declared.failures.Failure.TheVariants as failures;
ghost use Rattle.parse_program.specs.Turn.{first_line};

use crate::turns::turn;
use bs_outside::NoMemory;
use parse_state::{Context, Failure, Operators, Parser};
use std::alloc::AllocError;
use token_lookahead::Lookahead;

/// The line at which the grammar stops, of the tokens from here on: behind as many lines of statements as are derived, then behind a header, and so on. It is the given line where
/// no token is left there, and none where the walk is cut since symbols nest too deep.
///
/// # Errors
///
/// Where there is not memory enough.
pub fn stop_line<N: Operators>(
    context: Context<'_>,
    nested: &N,
    parser: &mut Parser<'_>,
    end: u64,
) -> Result<Option<u64>, NoMemory>
    requires { N.IsReady nested.now }
    ensures stops { (w : Toks) (s : Scope) → At parser.old w s → IfOk result (λ line. line ≡ stops_at context.entry.source.now (N.readers nested.now context.entry.source.now) end w s) }
{
    loop {
        let place = parser.lookahead(context);
        match turn(context, nested, parser) {
            Ok(()) => {}
            Err(failure) => return stopped(failure, place, end),
        }
    }
}

// The line at which a walk stops that goes no further from here.
fn stopped(failure: Failure, place: Lookahead<'_>, end: u64) -> Result<Option<u64>, NoMemory>
    ensures syntax { failure ≡ failures.Syntax → IfOk result (λ line. line ≡ Some (first_line end (seen_all place.entry.rest.now))) }
    ensures deep { failure ≡ failures.TooDeep → IfOk result (λ line. line ≡ None) }
    ensures memory { failure ≡ failures.Memory → IsErr result }
{
    match failure {
        Failure::Syntax => Ok(Some(line_or(end, place))),
        Failure::TooDeep => Ok(None),
        Failure::Memory => Err(AllocError),
    }
}

// The line of the first token, or the line given where there is none.
fn line_or(end: u64, place: Lookahead<'_>) -> u64
    ensures { result ≡ first_line end (seen_all place.entry.rest.now) }
{
    if place.is_empty() {
        return end;
    }
    place.line_at()
}

//! The symbols, as deep as they may nest.
ghost use Rattle.std.specs.Prelude.{◌≡◌, IfOk};
ghost use Rattle.ruby_lexer.specs.Pieces.{Toks};
ghost use Rattle.ruby_tree.specs.Rules.{Scope};
ghost use Rattle.token_lookahead.specs.Lookaheads.{do_owner_of};
ghost use Rattle.tree_builder.specs.Subtrees.{Holds};
ghost use Rattle.reference_parser.specs.ReadStatements.{readers};
ghost use Rattle.reference_parser.specs.Stops.{stops_at};
ghost use Rattle.parse_state.specs.Standing.{At};
ghost use Rattle.parse_state.specs.Gives.{Reads};
ghost use Rattle.parse_program.specs.Knot.{HoldsFound, reader_of};

use crate::below::Below;
use crate::founds::{Found, part};
use crate::symbols::read_symbol;
use bs_outside::NoMemory;
use parse_state::{Context, Failure, NestedSymbol, Parser};
use token_lookahead::DoBlockOwner;
use tree_builder::Subtree;

/// Statements, in which symbols nest at most so deep.
///
/// # Errors
///
/// Where the grammar derives none here, where symbols nest too deep, and where there is not memory enough.
pub fn statements(
    depth: u64,
    context: Context<'_>,
    parser: &mut Parser<'_>,
    do_owner: DoBlockOwner,
) -> Result<Subtree, Failure>
    ensures reads { Reads Holds parser.old parser.new result ((readers context.entry.source.now depth).stmts (do_owner_of do_owner)) }
{
    part(read(depth, NestedSymbol::Statements, context, parser, do_owner))
}

/// The line at which the grammar stops, of the tokens from here on, by a walk over statements in which symbols nest at most so deep: behind as many lines of statements as are
/// derived, then behind a header, and so on. It is the given line where no token is left there, and none where the walk is cut since symbols nest too deep.
///
/// # Errors
///
/// Where there is not memory enough.
pub fn stop_line(
    depth: u64,
    context: Context<'_>,
    parser: &mut Parser<'_>,
    end: u64,
) -> Result<Option<u64>, NoMemory>
    ensures stops { (w : Toks) (s : Scope) → At parser.old w s → IfOk result (λ line. line ≡ stops_at context.entry.source.now (readers context.entry.source.now depth) end w s) }
{
    let nested = Below {
        read: |symbol: NestedSymbol, context: Context<'_>, parser: &mut Parser<
            '_,
        >, do_owner: DoBlockOwner| -> Found
            ensures reads { Reads HoldsFound parser.old parser.new result (reader_of (readers context.entry.source.now depth) symbol (do_owner_of do_owner)) }
        { read(depth, symbol, context, parser, do_owner) },
        depth,
    };
    crate::walk::stop_line(context, &nested, parser, end)
}

// A symbol, in which symbols nest at most so deep.
fn read(
    depth: u64,
    symbol: NestedSymbol,
    context: Context<'_>,
    parser: &mut Parser<'_>,
    do_owner: DoBlockOwner,
) -> Found
    ensures reads { Reads HoldsFound parser.old parser.new result (reader_of (readers context.entry.source.now depth) symbol (do_owner_of do_owner)) }
{
    if depth == 0 {
        return Err(Failure::TooDeep);
    }
    let less = depth - 1;
    let below = |symbol: NestedSymbol, context: Context<'_>, parser: &mut Parser<
        '_,
    >, do_owner: DoBlockOwner| -> Found
        ensures reads { Reads HoldsFound parser.old parser.new result (reader_of (readers context.entry.source.now less) symbol (do_owner_of do_owner)) }
    { read(less, symbol, context, parser, do_owner) };
    let nested = Below {
        read: below,
        depth: less,
    };
    read_symbol(symbol, context, &nested, parser, do_owner)
}

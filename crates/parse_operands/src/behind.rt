//! Tests of the first tokens, as a parser stands before them.
ghost use Rattle.std.specs.Prelude.{◌≡◌, ◌&&◌, ◌||◌, not, codes};
ghost use Rattle.ruby_lexer.specs.Pieces.{Toks, seen_all};
ghost use Rattle.ruby_tree.specs.SourcePositions.{position_of};
ghost use Rattle.ruby_tree.specs.Rules.{Scope, next, front, word, blank, is_local, opens, opens_block, begins_arg, begins_arguments, assigns, is_negative};
ghost use Rattle.ruby_tree.specs.Rules as test;
ghost use Rattle.token_lookahead.specs.Lookaheads.{do_owner_of, integer_in};
ghost use Rattle.reference_parser.specs.Fronts.{is_newline, is_name, is_constant};
ghost use Rattle.parse_state.specs.Standing.{At};

use parse_state::{Context, Parser, position_with};
use ruby_tree::SourcePosition;
use token_lookahead::{DoBlockOwner, Lookahead};

/// The position of a node that begins here.
pub fn position_here(context: Context<'_>, parser: &Parser<'_>) -> SourcePosition
    ensures { (w : Toks) (s : Scope) → At parser.now w s → position_of result ≡ test.position w }
{
    parser.lookahead(context).position()
}

/// The tokens that are left, without the text: what the first of them is and holds.
pub fn tokens_here<'a>(parser: &Parser<'a>) -> Lookahead<'a>
    ensures { (w : Toks) (s : Scope) → At parser.now w s → seen_all result.rest.now ≡ w }
{
    Lookahead {
        source: &[],
        rest: parser.rest,
    }
}

/// The position of a node that begins at a position, and whose name or operator stands here.
pub fn position_from(
    context: Context<'_>,
    parser: &Parser<'_>,
    start: SourcePosition,
) -> SourcePosition
    ensures { (o w : Toks) (s : Scope) → position_of start ≡ test.position o → At parser.now w s → position_of result ≡ test.position_with o w }
{
    position_with(start, parser.lookahead(context))
}

/// Whether the mark stands behind the first token.
pub fn mark_behind(context: Context<'_>, parser: &Parser<'_>, mark: &str) -> bool
    ensures { (w : Toks) (s : Scope) → At parser.now w s → result ≡ test.is_mark context.entry.source.now mark.now (next w) }
{
    parser.lookahead(context).next().is_mark(mark)
}

/// Whether a constant stands behind the first token.
pub fn constant_behind(context: Context<'_>, parser: &Parser<'_>) -> bool
    ensures { (w : Toks) (s : Scope) → At parser.now w s → result ≡ is_constant (next w) }
{
    parser.lookahead(context).next().is_constant()
}

/// Whether brackets open behind the first token.
pub fn opens_behind(context: Context<'_>, parser: &Parser<'_>) -> bool
    ensures { (w : Toks) (s : Scope) → At parser.now w s → result ≡ opens context.entry.source.now (next w) }
{
    parser.lookahead(context).next().opens()
}

/// Whether a block that a call takes opens behind the first token.
pub fn block_behind(context: Context<'_>, parser: &Parser<'_>, do_owner: DoBlockOwner) -> bool
    ensures { (w : Toks) (s : Scope) → At parser.now w s → result ≡ opens_block context.entry.source.now (do_owner_of do_owner) (next w) }
{
    parser.lookahead(context).next().opens_block(do_owner)
}

/// Whether what stands behind the first token makes a command of it.
pub fn arguments_behind(context: Context<'_>, parser: &Parser<'_>) -> bool
    ensures { (w : Toks) (s : Scope) → At parser.now w s → result ≡ begins_arguments context.entry.source.now (next w) }
{
    parser.lookahead(context).next().begins_arguments()
}

/// Whether what stands here makes a command of what stands before it.
pub fn arguments_here(context: Context<'_>, parser: &Parser<'_>) -> bool
    ensures { (w : Toks) (s : Scope) → At parser.now w s → result ≡ begins_arguments context.entry.source.now w }
{
    parser.lookahead(context).begins_arguments()
}

/// Whether an argument begins behind the first token.
pub fn argument_behind(context: Context<'_>, parser: &Parser<'_>) -> bool
    ensures { (w : Toks) (s : Scope) → At parser.now w s → result ≡ begins_arg context.entry.source.now (next w) }
{
    parser.lookahead(context).next().begins_arg()
}

/// Whether something is assigned here.
pub fn assigns_here(context: Context<'_>, parser: &Parser<'_>) -> bool
    ensures { (w : Toks) (s : Scope) → At parser.now w s → result ≡ assigns context.entry.source.now w }
{
    parser.lookahead(context).assigns()
}

/// Whether the first token is a local.
pub fn local_here(context: Context<'_>, parser: &Parser<'_>) -> bool
    ensures { (w : Toks) (s : Scope) → At parser.now w s → result ≡ is_local s (word context.entry.source.now w) }
{
    parser.locals.contains(parser.lookahead(context).word())
}

/// Whether a number with its sign stands here.
pub fn negative_here(context: Context<'_>, parser: &Parser<'_>) -> bool
    ensures { (w : Toks) (s : Scope) → At parser.now w s → result ≡ is_negative context.entry.source.now w }
{
    parser.lookahead(context).is_negative()
}

/// The number behind the first token.
pub fn integer_behind(context: Context<'_>, parser: &Parser<'_>) -> Option<i64>
    ensures { (w : Toks) (s : Scope) → At parser.now w s → result ≡ integer_in (front (next w)) }
{
    parser.lookahead(context).next().integer()
}

/// Whether the parts of a `case` without a value begin behind the first token.
pub fn whens_behind(context: Context<'_>, parser: &Parser<'_>) -> bool
    ensures { (w : Toks) (s : Scope) → At parser.now w s → result ≡ (is_newline (next w) || test.is_word context.entry.source.now (codes "when") (next w)) }
{
    let behind = parser.lookahead(context).next();
    behind.is_newline() || behind.is_word("when")
}

/// Whether a constant and a newline stand behind the first token.
pub fn header_behind(context: Context<'_>, parser: &Parser<'_>) -> bool
    ensures { (w : Toks) (s : Scope) → At parser.now w s → result ≡ (is_constant (next w) && is_newline (next (next w))) }
{
    let behind = parser.lookahead(context).next();
    behind.is_constant() && behind.next().is_newline()
}

/// Whether an index begins here: brackets with no blank before them.
pub fn index_here(context: Context<'_>, parser: &Parser<'_>) -> bool
    ensures { (w : Toks) (s : Scope) → At parser.now w s → result ≡ (test.is_mark context.entry.source.now (codes "[") w && not (blank w)) }
{
    let lookahead = parser.lookahead(context);
    lookahead.is_mark("[") && !lookahead.blank()
}

/// Whether an index ends here that is set.
pub fn index_set_here(context: Context<'_>, parser: &Parser<'_>) -> bool
    ensures { (w : Toks) (s : Scope) → At parser.now w s → result ≡ (test.is_mark context.entry.source.now (codes "]") w && assigns context.entry.source.now (next w)) }
{
    let lookahead = parser.lookahead(context);
    lookahead.is_mark("]") && lookahead.next().assigns()
}

/// Whether an index ends here that is read.
pub fn index_read_here(context: Context<'_>, parser: &Parser<'_>) -> bool
    ensures { (w : Toks) (s : Scope) → At parser.now w s → result ≡ (test.is_mark context.entry.source.now (codes "]") w && not (assigns context.entry.source.now (next w))) }
{
    let lookahead = parser.lookahead(context);
    lookahead.is_mark("]") && !lookahead.next().assigns()
}

/// Whether a dot stands here, and a name behind it.
pub fn attribute_here(context: Context<'_>, parser: &Parser<'_>) -> bool
    ensures { (w : Toks) (s : Scope) → At parser.now w s → result ≡ (test.is_mark context.entry.source.now (codes ".") w && is_name (next w)) }
{
    let lookahead = parser.lookahead(context);
    lookahead.is_mark(".") && lookahead.next().is_name()
}

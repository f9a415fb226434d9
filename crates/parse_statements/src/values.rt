//! What is assigned, and the operator that assigns.
ghost use Rattle.std.specs.Prelude.{◌≡◌};
ghost use Rattle.ruby_lexer.specs.Pieces.{Toks, seen_all};
ghost use Rattle.ruby_tree.specs.Tree.{Tree};
ghost use Rattle.ruby_tree.specs.Rules.{Scope, position, word, but_last};
ghost use Rattle.ruby_tree.specs.SourcePositions.{position_of};
ghost use Rattle.token_lookahead.specs.Lookaheads.{do_owner_of};
ghost use Rattle.tree_builder.specs.Subtrees.{IsNamed, Holds};
ghost use Rattle.reference_parser.specs.Answers.{taken};
ghost use Rattle.parse_state.specs.Standing.{At};
ghost use Rattle.parse_state.specs.Gives.{Gives, Reads};
ghost use Rattle.reference_parser.specs.ReadStatements.{read_value};
ghost use Rattle.parse_statements.specs.Settings.{saved_from};

use parse_state::{Context, Failure, Nested, Parser};
use ruby_tree::{Name, SourcePosition};
use token_lookahead::{DoBlockOwner, Lookahead};
use tree_builder::Subtree;

/// What is assigned: an argument or a command, and what stands in its place behind `rescue`.
///
/// # Errors
///
/// Where the grammar derives none here, where symbols nest too deep, and where there is not memory enough.
pub fn value<N: Nested>(
    context: Context<'_>,
    nested: &N,
    parser: &mut Parser<'_>,
    do_owner: DoBlockOwner,
) -> Result<Subtree, Failure>
    requires { N.IsReady nested.now }
    ensures reads { Reads Holds parser.old parser.new result (read_value context.entry.source.now (N.readers nested.now context.entry.source.now) (do_owner_of do_owner)) }
{
    let here = parser.lookahead(context).position();
    let tried = nested.assigned_value(context, parser, do_owner)?;
    if parser.is_word(context, "rescue") {
        return saved(context, nested, parser, do_owner, here, tried);
    }
    Ok(tried)
}

// What stands in the place of a value that begins at the position, behind the `rescue` here.
fn saved<N: Nested>(
    context: Context<'_>,
    nested: &N,
    parser: &mut Parser<'_>,
    do_owner: DoBlockOwner,
    here: SourcePosition,
    tried: Subtree,
) -> Result<Subtree, Failure>
    requires { N.IsReady nested.now }
    ensures reads { (o : Toks) (a : Tree) → position_of here ≡ position o → Holds parser.old.symbols tried a → Reads Holds parser.old parser.new result (saved_from (N.readers nested.now context.entry.source.now) (do_owner_of do_owner) o a) }
{
    let clause = parser.lookahead(context).position();
    let in_clause = parser.in_clause;
    parser.bump();
    let behind = parser.lookahead(context).position();
    parser.enter_clause();
    let saved = nested.argument(context, parser, do_owner)?;
    parser.go_behind(in_clause);
    Ok(tree_builder::rescued(context.alloc, here, clause, behind, tried, saved)?)
}

/// The name of the operator that an assignment sends: its mark, which is the first token of the lookahead, without the `=`.
///
/// # Errors
///
/// Where there is not memory enough.
pub fn operator_name(
    context: Context<'_>,
    parser: &mut Parser<'_>,
    operator: Lookahead<'_>,
) -> Result<Name, Failure>
    ensures gives { (q : Toks) → operator.entry.source.now ≡ context.entry.source.now → seen_all operator.entry.rest.now ≡ q → (w : Toks) (s : Scope) → At parser.old w s → Gives IsNamed parser.old parser.new result (taken (but_last (word context.entry.source.now q)) w s) }
{
    parser.intern(context, without_last(operator.word()))
}

// A text without its last byte.
fn without_last(text: &[u8]) -> &[u8]
    ensures { result.now ≡ but_last text.now }
{
    &text[..text.len().saturating_sub(1)]
}

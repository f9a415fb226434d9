//! Modifiers behind a statement.
ghost use Rattle.std.specs.Prelude.{◌≡◌, ◌<◌, ◌≤◌, ◌-◌, length, Bool, Ok, Some, IfOk};
ghost use Rattle.ruby_lexer.specs.Pieces.{Toks};
ghost use Rattle.ruby_tree.specs.Names.{Texts};
ghost use Rattle.ruby_tree.specs.Tree.{Tree, at, if_else, while_loop, without, with};
ghost use Rattle.ruby_tree.specs.Depth.{depth};
ghost use Rattle.ruby_tree.specs.Build.{alone, or_empty};
ghost use Rattle.ruby_tree.specs.Rules.{Scope, next, position};
ghost use Rattle.ruby_tree.specs.SourcePositions.{position_of};
ghost use Rattle.token_lookahead.specs.Lookaheads.{do_owner_of};
ghost use Rattle.tree_builder.specs.Subtrees.{Holds};
ghost use Rattle.reference_parser.specs.ReadStatements.{modifiers_from};
ghost use Rattle.parse_state.specs.Standing.{At};
ghost use Rattle.parse_state.specs.Gives.{Reads, ReadsWithin};
ghost use Rattle.parse_statements.specs.Statements.{modifier_at, modified_by, condition_of, read_saved, one_modifier};

use bs_outside::NoMemory;
use parse_state::{Context, Failure, Nested, Parser};
use ruby_tree::SourcePosition;
use std::alloc::Global;
use token_lookahead::DoBlockOwner;
use tree_builder::{ElseSubtree, Subtree, alone, if_else, or_empty, rescued, while_loop};

/// A word behind a statement that makes a part of a larger one of it.
#[derive(Clone, Copy, Debug, PartialEq, Eq, Drop)]
pub enum Modifier {
    /// `a if c`
    If,
    /// `a unless c`
    Unless,
    /// `a while c`
    While,
    /// `a until c`
    Until,
    /// `a rescue b`
    Rescue,
}

/// A statement with the modifiers behind it. It begins at the position, and is told whether it is a body between `begin` and `end`. Of one that
/// is too deep to be kept nothing has to be told.
///
/// # Errors
///
/// Where the grammar derives none here, where symbols nest too deep, and where there is not memory enough.
pub fn modified<N: Nested>(
    context: Context<'_>,
    nested: &N,
    parser: &mut Parser<'_>,
    do_owner: DoBlockOwner,
    here: SourcePosition,
    mut is_body: bool,
    mut statement: Subtree,
) -> Result<Subtree, Failure>
    requires { N.IsReady nested.now }
    ensures reads { (o : Toks) (b : Bool) (a : Tree) → position_of here ≡ position o → (depth a ≤ 200 → is_body ≡ b) → Holds parser.old.symbols statement a → ReadsWithin Holds parser.old parser.new result (λ m. modifiers_from context.entry.source.now (N.readers nested.now context.entry.source.now) m (do_owner_of do_owner) o b a) }
{
    while let Some(modifier) = modifier_here(context, parser) {
        statement = one_modifier(
            context, nested, parser, do_owner, modifier, here, is_body, statement,
        )?;
        is_body = false;
    }
    Ok(statement)
}

// The modifier that stands here.
fn modifier_here(context: Context<'_>, parser: &Parser<'_>) -> Option<Modifier>
    ensures is { (w : Toks) (s : Scope) → At parser.now w s → result ≡ modifier_at context.entry.source.now w }
    ensures some { (modifier : Modifier) → result ≡ Some modifier → 0 < length parser.now.rest.now }
{
    if parser.is_word(context, "if") {
        return Some(Modifier::If);
    }
    if parser.is_word(context, "unless") {
        return Some(Modifier::Unless);
    }
    if parser.is_word(context, "while") {
        return Some(Modifier::While);
    }
    if parser.is_word(context, "until") {
        return Some(Modifier::Until);
    }
    if parser.is_word(context, "rescue") {
        return Some(Modifier::Rescue);
    }
    None
}

// The modifier that stands here, with what stands behind its word.
#[allow(clippy::too_many_arguments)]
fn one_modifier<N: Nested>(
    context: Context<'_>,
    nested: &N,
    parser: &mut Parser<'_>,
    do_owner: DoBlockOwner,
    modifier: Modifier,
    here: SourcePosition,
    is_body: bool,
    statement: Subtree,
) -> Result<Subtree, Failure>
    requires { N.IsReady nested.now }
    ensures reads { (o : Toks) (b : Bool) (a : Tree) → position_of here ≡ position o → (depth a ≤ 200 → is_body ≡ b) → Holds parser.old.symbols statement a → Reads Holds parser.old parser.new result (one_modifier (N.readers nested.now context.entry.source.now) modifier (do_owner_of do_owner) o b a) }
    ensures fewer { (x : Subtree) → result ≡ Ok x → length parser.new.rest.now ≤ length parser.old.rest.now - 1 }
{
    let lookahead = parser.lookahead(context);
    let word = lookahead.position();
    let behind = lookahead.next().position();
    parser.bump();
    let condition = condition(context, nested, parser, do_owner, modifier)?;
    Ok(made(
        context.alloc,
        modifier,
        here,
        word,
        behind,
        is_body,
        statement,
        condition,
    )?)
}

// What stands behind the word of a modifier: the condition, or what is done in place of the statement.
fn condition<N: Nested>(
    context: Context<'_>,
    nested: &N,
    parser: &mut Parser<'_>,
    do_owner: DoBlockOwner,
    modifier: Modifier,
) -> Result<Subtree, Failure>
    requires { N.IsReady nested.now }
    ensures reads { Reads Holds parser.old parser.new result (condition_of (N.readers nested.now context.entry.source.now) modifier (do_owner_of do_owner)) }
{
    match modifier {
        Modifier::If | Modifier::Unless => nested.expression(context, parser, do_owner),
        Modifier::While | Modifier::Until => nested.expression(
            context,
            parser,
            DoBlockOwner::Loops,
        ),
        Modifier::Rescue => saved(context, nested, parser, do_owner),
    }
}

// What stands behind `rescue`, in a clause of its own.
fn saved<N: Nested>(
    context: Context<'_>,
    nested: &N,
    parser: &mut Parser<'_>,
    do_owner: DoBlockOwner,
) -> Result<Subtree, Failure>
    requires { N.IsReady nested.now }
    ensures reads { Reads Holds parser.old parser.new result (read_saved (N.readers nested.now context.entry.source.now) (do_owner_of do_owner)) }
{
    let in_clause = parser.in_clause;
    parser.enter_clause();
    let part = nested.expression(context, parser, do_owner)?;
    parser.go_behind(in_clause);
    Ok(part)
}

// The tree of a statement with a modifier. The positions are those of the statement, of the modifier's word, and of what stands behind that.
#[allow(clippy::too_many_arguments)]
fn made(
    alloc: Global,
    modifier: Modifier,
    here: SourcePosition,
    word: SourcePosition,
    behind: SourcePosition,
    is_body: bool,
    statement: Subtree,
    condition: Subtree,
) -> Result<Subtree, NoMemory>
    ensures made { (T : Texts) (o v : Toks) (b : Bool) (a c : Tree) → position_of here ≡ position o → position_of word ≡ position v → position_of behind ≡ position (next v) → (depth a ≤ 200 → is_body ≡ b) → Holds T statement a → Holds T condition c → IfOk result (λ part. Holds T part (modified_by modifier o v b a c)) }
{
    match modifier {
        Modifier::If => where_true(alloc, here, statement, condition),
        Modifier::Unless => where_false(alloc, here, statement, condition),
        Modifier::While => looped(alloc, here, false, is_body, statement, condition),
        Modifier::Until => looped(alloc, here, true, is_body, statement, condition),
        Modifier::Rescue => rescued(alloc, here, word, behind, statement, condition),
    }
}

// `a if c`
fn where_true(
    alloc: Global,
    here: SourcePosition,
    statement: Subtree,
    condition: Subtree,
) -> Result<Subtree, NoMemory>
    ensures made { (T : Texts) (o : Toks) (a c : Tree) → position_of here ≡ position o → Holds T statement a → Holds T condition c → IfOk result (λ part. Holds T part (at (position o) (if_else c (alone o a) without))) }
{
    let chosen = alone(alloc, here, statement)?;
    if_else(alloc, here, condition, chosen, ElseSubtree::none())
}

// `a unless c`
fn where_false(
    alloc: Global,
    here: SourcePosition,
    statement: Subtree,
    condition: Subtree,
) -> Result<Subtree, NoMemory>
    ensures made { (T : Texts) (o : Toks) (a c : Tree) → position_of here ≡ position o → Holds T statement a → Holds T condition c → IfOk result (λ part. Holds T part (at (position o) (if_else c (or_empty without) (with (alone o a))))) }
{
    let other = alone(alloc, here, statement)?;
    let other = ElseSubtree::some(alloc, other)?;
    let nothing = or_empty(alloc, ElseSubtree::none());
    if_else(alloc, here, condition, nothing, other)
}

// `a while c`, or `a until c`
fn looped(
    alloc: Global,
    here: SourcePosition,
    until: bool,
    is_body: bool,
    statement: Subtree,
    condition: Subtree,
) -> Result<Subtree, NoMemory>
    ensures made { (T : Texts) (o : Toks) (b : Bool) (a c : Tree) → position_of here ≡ position o → (depth a ≤ 200 → is_body ≡ b) → Holds T statement a → Holds T condition c → IfOk result (λ part. Holds T part (at (position o) (while_loop (alone o a) c until b))) }
{
    let body = alone(alloc, here, statement)?;
    while_loop(alloc, here, body, condition, until, is_body)
}

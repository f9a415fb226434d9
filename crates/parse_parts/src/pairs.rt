//! Keys with their values.
ghost use Rattle.std.specs.Prelude.{◌≡◌, IfOk, if◌then◌else◌, suc};
ghost use Rattle.ruby_lexer.specs.Pieces.{Toks, seen_all};
ghost use Rattle.ruby_tree.specs.FaultLine.{count_of};
ghost use Rattle.ruby_tree.specs.Tree.{Pairs, pair, no_pair};
ghost use Rattle.ruby_tree.specs.Rules.{Scope, next, position};
ghost use Rattle.ruby_tree.specs.SourcePositions.{position_of};
ghost use Rattle.token_lookahead.specs.Lookaheads.{do_owner_of};
ghost use Rattle.tree_builder.specs.Subtrees.{HoldsPairs, pairs_then};
ghost use Rattle.reference_parser.specs.Answers.{Parse};
ghost use Rattle.reference_parser.specs.Fronts.{label_at, more_pairs};
ghost use Rattle.reference_parser.specs.ReadItems.{KeyValue, pair_by, read_pair, pair_list, end_pairs, pairs_from};
ghost use Rattle.parse_state.specs.Standing.{At};
ghost use Rattle.parse_state.specs.Gives.{Gives, Reads, ReadsWithin};
ghost use Rattle.parse_parts.specs.Items.{HoldsPair, HoldsHash};
ghost use Rattle.parse_parts.specs.OneTurn.{pair_turn, pairs_behind};
ghost use Rattle.parse_parts.specs.Turns.{Turns, IsFewer};

use crate::given::{HashPart, PassingParts};
use crate::passing::passed;
use bs_outside::{Bytes, NoMemory};
use parse_state::{Context, Failure, Nested, Parser};
use ruby_tree::SourcePosition;
use token_lookahead::{DoBlockOwner, Lookahead, plain_text};
use tree_builder::{PairSubtrees, Subtree, hash, symbol};

// A key with its value.
#[derive(Drop)]
pub struct PairPart {
    pub key: Subtree,
    pub value: Subtree,
}

// The text of the label here, where it has no code.
fn label_text(context: Context<'_>, lookahead: Lookahead<'_>) -> Result<Option<Bytes>, NoMemory>
    ensures { IfOk result (λ text. text ≡ label_at (seen_all lookahead.entry.rest.now)) }
{
    match lookahead.label() {
        Some(parts) => plain_text(context.alloc, parts),
        None => Ok(None),
    }
}

// A pair whose key is a label.
fn labeled<N: Nested>(
    context: Context<'_>,
    nested: &N,
    parser: &mut Parser<'_>,
    do_owner: DoBlockOwner,
) -> Result<PairPart, Failure>
    requires { N.IsReady nested.now }
    ensures reads { Reads HoldsPair parser.old parser.new result (λ w s. pair_by context.entry.source.now (N.readers nested.now context.entry.source.now) (do_owner_of do_owner) w s (label_at w)) }
{
    let lookahead = parser.lookahead(context);
    let Some(text) = label_text(context, lookahead)? else {
        return Err(Failure::Syntax);
    };
    let name = parser.intern(context, text.as_slice())?;
    parser.bump();
    let value = nested.argument(context, parser, do_owner)?;
    let key = symbol(lookahead.position(), name);
    Ok(PairPart { key, value })
}

// A pair.
pub fn one_pair<N: Nested>(
    context: Context<'_>,
    nested: &N,
    parser: &mut Parser<'_>,
    do_owner: DoBlockOwner,
) -> Result<PairPart, Failure>
    requires { N.IsReady nested.now }
    ensures reads { Reads HoldsPair parser.old parser.new result (read_pair context.entry.source.now (N.readers nested.now context.entry.source.now) (do_owner_of do_owner)) }
{
    if parser.lookahead(context).is_label() {
        return labeled(context, nested, parser, do_owner);
    }
    let key = nested.argument(context, parser, do_owner)?;
    parser.expect_mark(context, "=>")?;
    let value = nested.argument(context, parser, do_owner)?;
    Ok(PairPart { key, value })
}

// One more pair, and whether another one follows.
fn pair_turn<N: Nested>(
    context: Context<'_>,
    nested: &N,
    parser: &mut Parser<'_>,
    do_owner: DoBlockOwner,
    pairs: &mut PairSubtrees,
) -> Result<bool, Failure>
    requires { N.IsReady nested.now }
    ensures turns { (w : Toks) (s : Scope) (ps : Pairs) (further : Pairs → Parse Pairs) → At parser.old w s → HoldsPairs parser.old.symbols pairs.old ps → Turns HoldsPairs parser.old parser.new pairs.new further result (pair_turn context.entry.source.now (N.readers nested.now context.entry.source.now) (do_owner_of do_owner) ps further w s) }
    ensures fewer { IsFewer parser.old parser.new result }
{
    let pair = one_pair(context, nested, parser, do_owner)?;
    pairs.push(pair.key, pair.value)?;
    if parser.more_pairs(context) {
        parser.bump();
        return Ok(true);
    }
    Ok(false)
}

/// Pairs, with commas between them.
pub fn pair_list<N: Nested>(
    context: Context<'_>,
    nested: &N,
    parser: &mut Parser<'_>,
    do_owner: DoBlockOwner,
) -> Result<PairSubtrees, Failure>
    requires { N.IsReady nested.now }
    ensures reads { ReadsWithin HoldsPairs parser.old parser.new result (λ m. pair_list context.entry.source.now (N.readers nested.now context.entry.source.now) m (do_owner_of do_owner)) }
{
    let mut pairs = PairSubtrees::new(context.alloc);
    while pair_turn(context, nested, parser, do_owner, &mut pairs)? {}
    Ok(pairs)
}

// The pairs behind a first one, and that one.
fn pairs_behind<N: Nested>(
    context: Context<'_>,
    nested: &N,
    parser: &mut Parser<'_>,
    do_owner: DoBlockOwner,
    first: PairPart,
) -> Result<PairSubtrees, Failure>
    requires { N.IsReady nested.now }
    ensures reads { (p : KeyValue) → HoldsPair parser.old.symbols first p → Reads HoldsPairs parser.old parser.new result (pairs_behind context.entry.source.now (N.readers nested.now context.entry.source.now) (do_owner_of do_owner) p) }
{
    let mut pairs = PairSubtrees::new(context.alloc);
    pairs.push(first.key, first.value)?;
    if parser.more_pairs(context) {
        parser.bump();
        while pair_turn(context, nested, parser, do_owner, &mut pairs)? {}
        return Ok(pairs);
    }
    Ok(pairs)
}

// What is passed behind pairs that begin here, with them as a hash.
fn end_pairs<N: Nested>(
    context: Context<'_>,
    nested: &N,
    parser: &mut Parser<'_>,
    do_owner: DoBlockOwner,
    here: SourcePosition,
    pairs: PairSubtrees,
) -> Result<HashPart, Failure>
    requires { N.IsReady nested.now }
    ensures reads { (o : Toks) (ps : Pairs) → position_of here ≡ position o → HoldsPairs parser.old.symbols pairs ps → Reads HoldsHash parser.old parser.new result (end_pairs context.entry.source.now (N.readers nested.now context.entry.source.now) (do_owner_of do_owner) o ps) }
{
    if parser.more_passed(context) {
        parser.bump();
        let passing = passed(context, nested, parser, do_owner)?;
        let hash = hash(here, pairs);
        return Ok(HashPart { hash, passing });
    }
    let hash = hash(here, pairs);
    let passing = PassingParts::none();
    Ok(HashPart { hash, passing })
}

// The pairs behind a first one, which begins here, as a hash, and what is passed behind them.
pub fn pairs_from<N: Nested>(
    context: Context<'_>,
    nested: &N,
    parser: &mut Parser<'_>,
    do_owner: DoBlockOwner,
    here: SourcePosition,
    first: PairPart,
) -> Result<HashPart, Failure>
    requires { N.IsReady nested.now }
    ensures reads { (o : Toks) (p : KeyValue) → position_of here ≡ position o → HoldsPair parser.old.symbols first p → Reads HoldsHash parser.old parser.new result (pairs_from context.entry.source.now (N.readers nested.now context.entry.source.now) (do_owner_of do_owner) o p) }
{
    let pairs = pairs_behind(context, nested, parser, do_owner, first)?;
    end_pairs(context, nested, parser, do_owner, here, pairs)
}

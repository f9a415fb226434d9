//! The items of a call.
ghost use Rattle.std.specs.Prelude.{◌≡◌, ◌&&◌, not, codes, false};
ghost use Rattle.ruby_lexer.specs.Pieces.{Toks};
ghost use Rattle.ruby_tree.specs.Tree.{Tree};
ghost use Rattle.ruby_tree.specs.Build.{Given};
ghost use Rattle.ruby_tree.specs.Rules.{Scope, position};
ghost use Rattle.ruby_tree.specs.Rules as test;
ghost use Rattle.ruby_tree.specs.SourcePositions.{position_of};
ghost use Rattle.token_lookahead.specs.Lookaheads.{do_owner_of};
ghost use Rattle.tree_builder.specs.Subtrees.{Holds};
ghost use Rattle.reference_parser.specs.Answers.{Parse};
ghost use Rattle.reference_parser.specs.ReadItems.{Element, read_items, items, items_from, in_brackets, command_items};
ghost use Rattle.parse_state.specs.Standing.{At};
ghost use Rattle.parse_state.specs.Gives.{Reads, ReadsWithin};
ghost use Rattle.parse_parts.specs.Items.{HoldsGiven, HoldsElement};
ghost use Rattle.parse_parts.specs.OneTurn.{key_turn, behind_turn, labeled_turn, item_turn};
ghost use Rattle.parse_parts.specs.Turns.{Turns, IsFewer};

use crate::given::{ArgumentParts, ElementPart};
use crate::pairs::{PairPart, one_pair, pairs_from};
use crate::passing::passed;
use crate::rows::element;
use parse_state::{Context, Failure, Nested, Parser};
use ruby_tree::SourcePosition;
use token_lookahead::DoBlockOwner;
use tree_builder::Subtree;

// The pairs that begin with an element, which begins here. They are the last item.
fn as_key<N: Nested>(
    context: Context<'_>,
    nested: &N,
    parser: &mut Parser<'_>,
    do_owner: DoBlockOwner,
    here: SourcePosition,
    key: Subtree,
    given: &mut ArgumentParts,
) -> Result<bool, Failure>
    requires { N.IsReady nested.now }
    ensures turns { (o w : Toks) (s : Scope) (g : Given) (k : Tree) (further : Given → Parse Given) → position_of here ≡ position o → At parser.old w s → HoldsGiven parser.old.symbols given.old g → Holds parser.old.symbols key k → Turns HoldsGiven parser.old parser.new given.new further result (key_turn context.entry.source.now (N.readers nested.now context.entry.source.now) (do_owner_of do_owner) g o k w s) }
    ensures fewer { IsFewer parser.old parser.new result }
{
    parser.bump();
    let value = nested.argument(context, parser, do_owner)?;
    let first = PairPart { key, value };
    let last = pairs_from(context, nested, parser, do_owner, here, first)?;
    given.finish(last)?;
    Ok(false)
}

// Whether an element is the key of a pair.
fn is_key(context: Context<'_>, parser: &Parser<'_>, element: &ElementPart) -> bool
    ensures { (w : Toks) (s : Scope) → At parser.now w s → result ≡ (not element.now.spread && test.is_mark context.entry.source.now (codes "=>") w) }
{
    !element.spread && parser.is_mark(context, "=>")
}

// What follows an element that begins here, and whether another item follows.
fn behind_turn<N: Nested>(
    context: Context<'_>,
    nested: &N,
    parser: &mut Parser<'_>,
    do_owner: DoBlockOwner,
    here: SourcePosition,
    element: ElementPart,
    given: &mut ArgumentParts,
) -> Result<bool, Failure>
    requires { N.IsReady nested.now }
    ensures turns { (o w : Toks) (s : Scope) (g : Given) (e : Element) (further : Given → Parse Given) → position_of here ≡ position o → At parser.old w s → HoldsGiven parser.old.symbols given.old g → HoldsElement parser.old.symbols element e → Turns HoldsGiven parser.old parser.new given.new further result (behind_turn context.entry.source.now (N.readers nested.now context.entry.source.now) (do_owner_of do_owner) g further o e w s) }
    ensures fewer { IsFewer parser.old parser.new result }
{
    if is_key(context, parser, &element) {
        return as_key(context, nested, parser, do_owner, here, element.part, given);
    }
    given.push(element)?;
    if parser.more_items(context) {
        parser.bump();
        return Ok(true);
    }
    Ok(false)
}

// The pairs that begin with a label. They are the last item.
fn labeled_turn<N: Nested>(
    context: Context<'_>,
    nested: &N,
    parser: &mut Parser<'_>,
    do_owner: DoBlockOwner,
    given: &mut ArgumentParts,
) -> Result<bool, Failure>
    requires { N.IsReady nested.now }
    ensures turns { (w : Toks) (s : Scope) (g : Given) (further : Given → Parse Given) → At parser.old w s → HoldsGiven parser.old.symbols given.old g → Turns HoldsGiven parser.old parser.new given.new further result (labeled_turn context.entry.source.now (N.readers nested.now context.entry.source.now) (do_owner_of do_owner) g w s) }
    ensures fewer { IsFewer parser.old parser.new result }
{
    let here = parser.lookahead(context).position();
    let first = one_pair(context, nested, parser, do_owner)?;
    let last = pairs_from(context, nested, parser, do_owner, here, first)?;
    given.finish(last)?;
    Ok(false)
}

// One more item, and whether another one follows.
fn item_turn<N: Nested>(
    context: Context<'_>,
    nested: &N,
    parser: &mut Parser<'_>,
    do_owner: DoBlockOwner,
    given: &mut ArgumentParts,
) -> Result<bool, Failure>
    requires { N.IsReady nested.now }
    ensures turns { (w : Toks) (s : Scope) (g : Given) (further : Given → Parse Given) → At parser.old w s → HoldsGiven parser.old.symbols given.old g → Turns HoldsGiven parser.old parser.new given.new further result (item_turn context.entry.source.now (N.readers nested.now context.entry.source.now) (do_owner_of do_owner) g further w s) }
    ensures fewer { IsFewer parser.old parser.new result }
{
    if parser.is_mark(context, "&") {
        let passing = passed(context, nested, parser, do_owner)?;
        given.pass(passing);
        return Ok(false);
    }
    if parser.lookahead(context).is_label() {
        return labeled_turn(context, nested, parser, do_owner, given);
    }
    let here = parser.lookahead(context).position();
    let element = element(context, nested, parser, do_owner)?;
    behind_turn(context, nested, parser, do_owner, here, element, given)
}

/// The items of a call, with commas between them.
pub fn items<N: Nested>(
    context: Context<'_>,
    nested: &N,
    parser: &mut Parser<'_>,
    do_owner: DoBlockOwner,
) -> Result<ArgumentParts, Failure>
    requires { N.IsReady nested.now }
    ensures reads { Reads HoldsGiven parser.old parser.new result (read_items context.entry.source.now (N.readers nested.now context.entry.source.now) (do_owner_of do_owner)) }
{
    let mut given = ArgumentParts::nothing(context.alloc);
    while item_turn(context, nested, parser, do_owner, &mut given)? {}
    Ok(given)
}

/// The items of a call whose first one was read: an element that is not spread and begins here.
pub fn items_behind<N: Nested>(
    context: Context<'_>,
    nested: &N,
    parser: &mut Parser<'_>,
    do_owner: DoBlockOwner,
    here: SourcePosition,
    first: Subtree,
) -> Result<ArgumentParts, Failure>
    requires { N.IsReady nested.now }
    ensures reads { (o : Toks) (i : Tree) → position_of here ≡ position o → Holds parser.old.symbols first i → ReadsWithin HoldsGiven parser.old parser.new result (λ m. items_from context.entry.source.now (N.readers nested.now context.entry.source.now) (items context.entry.source.now (N.readers nested.now context.entry.source.now) m (do_owner_of do_owner) 1) (do_owner_of do_owner) 0 o (record { spread = false; tree = i })) }
{
    let mut given = ArgumentParts::nothing(context.alloc);
    let element = ElementPart {
        spread: false,
        part: first,
    };
    if !behind_turn(context, nested, parser, do_owner, here, element, &mut given)? {
        return Ok(given);
    }
    while item_turn(context, nested, parser, do_owner, &mut given)? {}
    Ok(given)
}

/// The items of a call in brackets, of which the first one stands here.
pub fn in_brackets<N: Nested>(
    context: Context<'_>,
    nested: &N,
    parser: &mut Parser<'_>,
) -> Result<ArgumentParts, Failure>
    requires { N.IsReady nested.now }
    ensures reads { Reads HoldsGiven parser.old parser.new result (in_brackets context.entry.source.now (N.readers nested.now context.entry.source.now)) }
{
    parser.bump();
    if parser.is_mark(context, ")") {
        parser.bump();
        return Ok(ArgumentParts::nothing(context.alloc));
    }
    let given = items(context, nested, parser, DoBlockOwner::Own)?;
    parser.expect_closing(context, ")")?;
    Ok(given)
}

/// The items of a call without brackets. No comma may follow.
pub fn command_items<N: Nested>(
    context: Context<'_>,
    nested: &N,
    parser: &mut Parser<'_>,
    do_owner: DoBlockOwner,
) -> Result<ArgumentParts, Failure>
    requires { N.IsReady nested.now }
    ensures reads { Reads HoldsGiven parser.old parser.new result (command_items context.entry.source.now (N.readers nested.now context.entry.source.now) (do_owner_of do_owner)) }
{
    let given = items(context, nested, parser, do_owner.in_arguments())?;
    if parser.is_mark(context, ",") {
        return Err(Failure::Syntax);
    }
    Ok(given)
}

//! Arguments in a row.
ghost use Rattle.std.specs.Prelude.{◌≡◌, suc};
ghost use Rattle.ruby_lexer.specs.Pieces.{Toks};
ghost use Rattle.ruby_tree.specs.Tree.{Trees};
ghost use Rattle.ruby_tree.specs.Build.{Given};
ghost use Rattle.ruby_tree.specs.Rules.{Scope};
ghost use Rattle.token_lookahead.specs.Lookaheads.{do_owner_of};
ghost use Rattle.tree_builder.specs.Subtrees.{HoldsAll};
ghost use Rattle.reference_parser.specs.Answers.{Parse};
ghost use Rattle.reference_parser.specs.ReadItems.{read_several, read_element, elements, read_classes};
ghost use Rattle.parse_state.specs.Standing.{At};
ghost use Rattle.parse_state.specs.Gives.{Reads, ReadsWithin};
ghost use Rattle.parse_parts.specs.Items.{HoldsGiven, HoldsElement};
ghost use Rattle.parse_parts.specs.OneTurn.{several_turn, element_turn};
ghost use Rattle.parse_parts.specs.Turns.{Turns};

use crate::given::{ArgumentParts, ElementPart};
use parse_state::{Context, Failure, Nested, Parser};
use token_lookahead::DoBlockOwner;
use tree_builder::Subtrees;

// One more argument, and whether another one follows.
fn several_turn<N: Nested>(
    context: Context<'_>,
    nested: &N,
    parser: &mut Parser<'_>,
    do_owner: DoBlockOwner,
    parts: &mut Subtrees,
) -> Result<bool, Failure>
    requires { N.IsReady nested.now }
    ensures turns { (w : Toks) (s : Scope) (ts : Trees) (further : Trees → Parse Trees) → At parser.old w s → HoldsAll parser.old.symbols parts.old ts → Turns HoldsAll parser.old parser.new parts.new further result (several_turn context.entry.source.now (N.readers nested.now context.entry.source.now) (do_owner_of do_owner) ts further w s) }
{
    let part = nested.argument(context, parser, do_owner)?;
    parts.push(part)?;
    if parser.is_mark(context, ",") {
        parser.bump();
        return Ok(true);
    }
    Ok(false)
}

/// Arguments, with commas between them.
pub fn several<N: Nested>(
    context: Context<'_>,
    nested: &N,
    parser: &mut Parser<'_>,
    do_owner: DoBlockOwner,
) -> Result<Subtrees, Failure>
    requires { N.IsReady nested.now }
    ensures reads { Reads HoldsAll parser.old parser.new result (read_several context.entry.source.now (N.readers nested.now context.entry.source.now) (do_owner_of do_owner)) }
{
    let mut parts = Subtrees::new(context.alloc);
    while several_turn(context, nested, parser, do_owner, &mut parts)? {}
    Ok(parts)
}

/// The classes of a `rescue`, or none.
pub fn classes<N: Nested>(
    context: Context<'_>,
    nested: &N,
    parser: &mut Parser<'_>,
    do_owner: DoBlockOwner,
) -> Result<Subtrees, Failure>
    requires { N.IsReady nested.now }
    ensures reads { Reads HoldsAll parser.old parser.new result (read_classes context.entry.source.now (N.readers nested.now context.entry.source.now) (do_owner_of do_owner)) }
{
    if parser.lookahead(context).begins_arg() {
        return several(context, nested, parser, do_owner);
    }
    Ok(Subtrees::new(context.alloc))
}

// An element, which may be spread.
pub fn element<N: Nested>(
    context: Context<'_>,
    nested: &N,
    parser: &mut Parser<'_>,
    do_owner: DoBlockOwner,
) -> Result<ElementPart, Failure>
    requires { N.IsReady nested.now }
    ensures reads { Reads HoldsElement parser.old parser.new result (read_element context.entry.source.now (N.readers nested.now context.entry.source.now) (do_owner_of do_owner)) }
{
    if parser.is_mark(context, "*") {
        parser.bump();
        let part = nested.argument(context, parser, do_owner)?;
        return Ok(ElementPart { spread: true, part });
    }
    let part = nested.argument(context, parser, do_owner)?;
    Ok(ElementPart {
        spread: false,
        part,
    })
}

// One more element, and whether another one follows.
fn element_turn<N: Nested>(
    context: Context<'_>,
    nested: &N,
    parser: &mut Parser<'_>,
    given: &mut ArgumentParts,
) -> Result<bool, Failure>
    requires { N.IsReady nested.now }
    ensures turns { (w : Toks) (s : Scope) (g : Given) (further : Given → Parse Given) → At parser.old w s → HoldsGiven parser.old.symbols given.old g → Turns HoldsGiven parser.old parser.new given.new further result (element_turn context.entry.source.now (N.readers nested.now context.entry.source.now) g further w s) }
{
    let element = element(context, nested, parser, DoBlockOwner::Own)?;
    given.push(element)?;
    if parser.more_elements(context) {
        parser.bump();
        return Ok(true);
    }
    Ok(false)
}

/// The elements of an array or an index, with commas between them.
pub fn elements<N: Nested>(
    context: Context<'_>,
    nested: &N,
    parser: &mut Parser<'_>,
) -> Result<ArgumentParts, Failure>
    requires { N.IsReady nested.now }
    ensures reads { ReadsWithin HoldsGiven parser.old parser.new result (λ m. elements context.entry.source.now (N.readers nested.now context.entry.source.now) m 0) }
{
    let mut given = ArgumentParts::nothing(context.alloc);
    while element_turn(context, nested, parser, &mut given)? {}
    Ok(given)
}

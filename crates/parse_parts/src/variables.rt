//! Variables that are set, and the parameters of a block.
ghost use Rattle.std.specs.Prelude.{◌≡◌, ◌&&◌, List, ◌++◌, ◌∷◌, [], codes, Option, Some, None, if◌then◌else◌};
ghost use Rattle.ruby_lexer.specs.Bytes.{Bytes};
ghost use Rattle.ruby_lexer.specs.Pieces.{Toks, seen_all};
ghost use Rattle.ruby_tree.specs.Tree.{Goal, Params, rest_param, no_param};
ghost use Rattle.ruby_tree.specs.Rules.{Scope, next, word, declare, declared, goal_at};
ghost use Rattle.ruby_tree.specs.Names.{Texts};
ghost use Rattle.ruby_tree.specs.Rules as test;
ghost use Rattle.token_lookahead.specs.Lookaheads.{goal_with};
ghost use Rattle.tree_builder.specs.Subtrees.{HoldsParams, IsNamed, IsOtherName, IsTarget, AreTargets, params_then};
ghost use Rattle.reference_parser.specs.Answers.{taken, Parse};
ghost use Rattle.reference_parser.specs.Fronts.{is_name};
ghost use Rattle.reference_parser.specs.ReadItems.{read_bars, block_params, exception_name, read_targets, more_targets};
ghost use Rattle.parse_state.specs.Standing.{At};
ghost use Rattle.parse_state.specs.Gives.{Gives, Reads, ReadsWithin, HoldsNothing};
ghost use Rattle.parse_parts.specs.OneTurn.{param_turn, named_param_turn, bars_here, one_target, target_turn};
ghost use Rattle.parse_parts.specs.Turns.{Turns};

use parse_state::{Context, Failure, Parser};
use ruby_tree::{Name, Target};
use token_lookahead::{Lookahead, Settable};
use tree_builder::ParamSubtrees;

// The name here, which becomes a local.
fn declared_name(context: Context<'_>, parser: &mut Parser<'_>) -> Result<Name, Failure>
    ensures gives { (w : Toks) (s : Scope) → At parser.old w s → Gives IsNamed parser.old parser.new result (taken (word context.entry.source.now w) w (declare (word context.entry.source.now w) s)) }
{
    let name = parser.word_name(context)?;
    parser.declare(context)?;
    Ok(name)
}

// The parameter that is the name here, and whether another one follows.
fn named_param_turn(
    context: Context<'_>,
    parser: &mut Parser<'_>,
    params: &mut ParamSubtrees,
) -> Result<bool, Failure>
    ensures turns { (w : Toks) (s : Scope) (ps : Params) (further : Params → Parse Params) → At parser.old w s → HoldsParams parser.old.symbols params.old ps → Turns HoldsParams parser.old parser.new params.new further result (named_param_turn context.entry.source.now ps further w s) }
{
    let name = declared_name(context, parser)?;
    params.push_required(name)?;
    parser.bump();
    if parser.is_mark(context, ",") {
        parser.bump();
        return Ok(true);
    }
    Ok(false)
}

// The parameter here that takes what is left.
fn rest_param(
    context: Context<'_>,
    parser: &mut Parser<'_>,
    params: &mut ParamSubtrees,
) -> Result<bool, Failure>
    ensures turns { (w : Toks) (s : Scope) (ps : Params) (further : Params → Parse Params) → At parser.old w s → HoldsParams parser.old.symbols params.old ps → Turns HoldsParams parser.old parser.new params.new further result (taken (params_then ps (rest_param (word context.entry.source.now (next w)) no_param)) (next (next w)) (declare (word context.entry.source.now (next w)) s)) }
{
    parser.bump();
    let name = declared_name(context, parser)?;
    params.push_rest(name)?;
    parser.bump();
    Ok(false)
}

// Whether a parameter that takes what is left stands here.
fn is_rest(lookahead: Lookahead<'_>) -> bool
    ensures { result ≡ (test.is_mark lookahead.entry.source.now (codes "*") (seen_all lookahead.entry.rest.now) && is_name (next (seen_all lookahead.entry.rest.now))) }
{
    lookahead.is_mark("*") && lookahead.next().is_name()
}

// One more parameter of a block, and whether another one follows.
fn param_turn(
    context: Context<'_>,
    parser: &mut Parser<'_>,
    params: &mut ParamSubtrees,
) -> Result<bool, Failure>
    ensures turns { (w : Toks) (s : Scope) (ps : Params) (further : Params → Parse Params) → At parser.old w s → HoldsParams parser.old.symbols params.old ps → Turns HoldsParams parser.old parser.new params.new further result (param_turn context.entry.source.now ps further w s) }
{
    let lookahead = parser.lookahead(context);
    if lookahead.is_name() {
        return named_param_turn(context, parser, params);
    }
    if is_rest(lookahead) {
        return rest_param(context, parser, params);
    }
    Err(Failure::Syntax)
}

// The parameters of a block, with commas between them.
fn block_params(context: Context<'_>, parser: &mut Parser<'_>) -> Result<ParamSubtrees, Failure>
    ensures reads { ReadsWithin HoldsParams parser.old parser.new result (λ m. block_params context.entry.source.now m) }
{
    let mut params = ParamSubtrees::new(context.alloc);
    while param_turn(context, parser, &mut params)? {}
    Ok(params)
}

// The parameters of a block, of whose bars the first one stands here.
fn bars_here(context: Context<'_>, parser: &mut Parser<'_>) -> Result<ParamSubtrees, Failure>
    ensures reads { Reads HoldsParams parser.old parser.new result (bars_here context.entry.source.now) }
{
    parser.bump();
    if parser.is_mark(context, "|") {
        parser.bump();
        return Ok(ParamSubtrees::new(context.alloc));
    }
    let params = block_params(context, parser)?;
    parser.expect_mark(context, "|")?;
    Ok(params)
}

/// The parameters of a block between bars, or none.
pub fn bars(context: Context<'_>, parser: &mut Parser<'_>) -> Result<ParamSubtrees, Failure>
    ensures reads { Reads HoldsParams parser.old parser.new result (read_bars context.entry.source.now) }
{
    if parser.is_mark(context, "|") {
        return bars_here(context, parser);
    }
    Ok(ParamSubtrees::new(context.alloc))
}

/// The name that a rescue clause gives the exception, where it gives one. It becomes a local.
pub fn exception_name(
    context: Context<'_>,
    parser: &mut Parser<'_>,
) -> Result<Option<Name>, Failure>
    ensures reads { Reads IsOtherName parser.old parser.new result (exception_name context.entry.source.now) }
{
    if !parser.is_mark(context, "=>") {
        return Ok(None);
    }
    parser.bump();
    if !parser.lookahead(context).is_name() {
        return Err(Failure::Syntax);
    }
    let name = declared_name(context, parser)?;
    parser.bump();
    Ok(Some(name))
}

/// The variable that stands here, as what is set. The parser stays before it.
pub fn target(
    context: Context<'_>,
    parser: &mut Parser<'_>,
    settable: Settable,
) -> Result<Target, Failure>
    ensures gives { (w : Toks) (s : Scope) → At parser.old w s → Gives IsTarget parser.old parser.new result (taken (goal_with (word context.entry.source.now w) settable) w s) }
{
    let name = parser.word_name(context)?;
    Ok(as_target(name, settable))
}

// A name as what is set.
fn as_target(name: Name, settable: Settable) -> Target
    ensures { (T : Texts) (f : Bytes) → IsNamed T name f → IsTarget T result (goal_with f settable) }
{
    match settable {
        Settable::Local => Target::Local(name),
        Settable::Instance => Target::Instance(name),
        Settable::Global => Target::Global(name),
    }
}

/// The name here becomes a local, where it is that of one.
///
/// # Errors
///
/// Where there is not memory enough.
pub fn declare_if(
    context: Context<'_>,
    parser: &mut Parser<'_>,
    settable: Settable,
) -> Result<(), Failure>
    ensures gives { (w : Toks) (s : Scope) → At parser.old w s → Gives HoldsNothing parser.old parser.new result (taken tt w (declared (goal_with (word context.entry.source.now w) settable) s)) }
{
    match settable {
        Settable::Local => parser.declare(context),
        Settable::Instance => Ok(()),
        Settable::Global => Ok(()),
    }
}

// One more variable that is set, behind the others.
fn one_target(
    context: Context<'_>,
    parser: &mut Parser<'_>,
    targets: &mut Vec<Target>,
) -> Result<(), Failure>
    ensures gives { (w : Toks) (s : Scope) (gs : List Goal) → At parser.old w s → AreTargets parser.old.symbols targets.old.items gs → Gives (λ T _ hs. AreTargets T targets.new.items hs) parser.old parser.new result (one_target context.entry.source.now gs w s) }
{
    let Some(settable) = parser.lookahead(context).goal() else {
        return Err(Failure::Syntax);
    };
    let target = target(context, parser, settable)?;
    declare_if(context, parser, settable)?;
    targets.push(target)?;
    parser.bump();
    Ok(())
}

// One more variable that is set, and whether another one follows.
fn target_turn(
    context: Context<'_>,
    parser: &mut Parser<'_>,
    targets: &mut Vec<Target>,
) -> Result<bool, Failure>
    ensures turns { (w : Toks) (s : Scope) (gs : List Goal) (further : List Goal → Parse (List Goal)) → At parser.old w s → AreTargets parser.old.symbols targets.old.items gs → Turns (λ T v hs. AreTargets T v.items hs) parser.old parser.new targets.new further result (target_turn context.entry.source.now gs further w s) }
{
    one_target(context, parser, targets)?;
    if parser.is_mark(context, ",") {
        parser.bump();
        return Ok(true);
    }
    Ok(false)
}

/// Two and more variables that are set, with commas between them. Those that are locals by their form become locals.
pub fn targets(context: Context<'_>, parser: &mut Parser<'_>) -> Result<Vec<Target>, Failure>
    ensures reads { Reads (λ T v gs. AreTargets T v.items gs) parser.old parser.new result (read_targets context.entry.source.now) }
{
    let mut targets = Vec::new(context.alloc);
    one_target(context, parser, &mut targets)?;
    parser.expect_mark(context, ",")?;
    while target_turn(context, parser, &mut targets)? {}
    Ok(targets)
}

//! The parameters of a method.
ghost use Rattle.std.specs.Prelude.{◌≡◌, ◌&&◌, nat_le, Ok, codes};
ghost use Rattle.ruby_lexer.specs.Pieces.{Toks, seen_all};
ghost use Rattle.ruby_tree.specs.Tree.{Params};
ghost use Rattle.ruby_tree.specs.Rules.{Scope, next, is_mark};
ghost use Rattle.token_lookahead.specs.Lookaheads.{do_owner_of};
ghost use Rattle.tree_builder.specs.Subtrees.{HoldsParams};
ghost use Rattle.reference_parser.specs.Answers.{Parse};
ghost use Rattle.reference_parser.specs.Fronts.{is_name};
ghost use Rattle.reference_parser.specs.ReadBodies.{method_params, bracket_params, parameter_list, read_parameters};
ghost use Rattle.parse_state.specs.Standing.{At};
ghost use Rattle.parse_state.specs.Gives.{Reads, ReadsWithin};
ghost use Rattle.parse_parts.specs.Turns.{Turns};
ghost use Rattle.parse_parts.specs.Parts.{Row, HoldsRow, row_from, required_turn, default_turn, named_turn, left_turn, block_turn, param_turn};

use parse_state::{Context, Failure, Nested, Parser};
use token_lookahead::{DoBlockOwner, Lookahead};
use tree_builder::ParamSubtrees;

// The parameters so far, and the kind from which on others may follow: 0 required ones, 1 those with a default, 2 the rest, 3 the block,
// and 4 none.
#[derive(Drop)]
pub struct ParamRow {
    pub params: ParamSubtrees,
    pub least: u8,
}

/// The parameters of a method, where some begin here.
pub fn parameters<N: Nested>(
    context: Context<'_>,
    nested: &N,
    parser: &mut Parser<'_>,
    do_owner: DoBlockOwner,
) -> Result<ParamSubtrees, Failure>
    requires { N.IsReady nested.now }
    ensures reads { Reads HoldsParams parser.old parser.new result (read_parameters context.entry.source.now (N.readers nested.now context.entry.source.now) (do_owner_of do_owner)) }
{
    if parser.lookahead(context).begins_params() {
        return parameter_list(context, nested, parser, do_owner);
    }
    Ok(ParamSubtrees::new(context.alloc))
}

/// The parameters of a method, in brackets or up to a newline.
pub fn parameter_list<N: Nested>(
    context: Context<'_>,
    nested: &N,
    parser: &mut Parser<'_>,
    do_owner: DoBlockOwner,
) -> Result<ParamSubtrees, Failure>
    requires { N.IsReady nested.now }
    ensures reads { Reads HoldsParams parser.old parser.new result (parameter_list context.entry.source.now (N.readers nested.now context.entry.source.now) (do_owner_of do_owner)) }
{
    if parser.is_mark(context, "(") {
        return bracket_params(context, nested, parser);
    }
    if parser.lookahead(context).is_newline() {
        parser.bump();
        return Ok(ParamSubtrees::new(context.alloc));
    }
    let params = method_params(context, nested, parser, do_owner)?;
    parser.expect_newline(context)?;
    Ok(params)
}

// Parameters in brackets.
fn bracket_params<N: Nested>(
    context: Context<'_>,
    nested: &N,
    parser: &mut Parser<'_>,
) -> Result<ParamSubtrees, Failure>
    requires { N.IsReady nested.now }
    ensures reads { Reads HoldsParams parser.old parser.new result (bracket_params context.entry.source.now (N.readers nested.now context.entry.source.now)) }
{
    parser.bump();
    if parser.is_mark(context, ")") {
        parser.bump();
        return Ok(ParamSubtrees::new(context.alloc));
    }
    let params = method_params(context, nested, parser, DoBlockOwner::Own)?;
    parser.expect_mark(context, ")")?;
    Ok(params)
}

// Parameters, of which at least one has to stand here.
fn method_params<N: Nested>(
    context: Context<'_>,
    nested: &N,
    parser: &mut Parser<'_>,
    do_owner: DoBlockOwner,
) -> Result<ParamSubtrees, Failure>
    requires { N.IsReady nested.now }
    ensures reads { ReadsWithin HoldsParams parser.old parser.new result (λ m. method_params context.entry.source.now (N.readers nested.now context.entry.source.now) m (do_owner_of do_owner) 0) }
{
    let mut row = ParamRow {
        params: ParamSubtrees::new(context.alloc),
        least: 0,
    };
    while one_param(context, nested, parser, do_owner, &mut row)? {}
    Ok(row.params)
}

// One parameter more, and whether another follows, behind a comma that is skipped.
fn one_param<N: Nested>(
    context: Context<'_>,
    nested: &N,
    parser: &mut Parser<'_>,
    do_owner: DoBlockOwner,
    row: &mut ParamRow,
) -> Result<bool, Failure>
    requires { N.IsReady nested.now }
    ensures turns { (w : Toks) (s : Scope) (t : Row) (further : Row → Parse Row) → At parser.old w s → HoldsRow parser.old.symbols row.old t → Turns HoldsRow parser.old parser.new row.new further result (param_turn context.entry.source.now (N.readers nested.now context.entry.source.now) (do_owner_of do_owner) t further w s) }
{
    let lookahead = parser.lookahead(context);
    if lookahead.is_name() {
        return named_param(context, nested, parser, do_owner, row);
    }
    if is_left(lookahead, row.least) {
        return left_param(context, parser, row);
    }
    if is_block(lookahead) {
        return block_param(context, parser, row);
    }
    Err(Failure::Syntax)
}

// Whether `*name` stands here, and may stand there.
fn is_left(lookahead: Lookahead<'_>, least: u8) -> bool
    ensures { result ≡ (is_mark lookahead.entry.source.now (codes "*") (seen_all lookahead.entry.rest.now) && (is_name (next (seen_all lookahead.entry.rest.now)) && nat_le least 2)) }
{
    lookahead.is_mark("*") && (lookahead.next().is_name() && least <= 2)
}

// Whether `&name` stands here.
fn is_block(lookahead: Lookahead<'_>) -> bool
    ensures { result ≡ (is_mark lookahead.entry.source.now (codes "&") (seen_all lookahead.entry.rest.now) && is_name (next (seen_all lookahead.entry.rest.now))) }
{
    lookahead.is_mark("&") && lookahead.next().is_name()
}

// A parameter that begins with its name: one with a default, or a required one.
fn named_param<N: Nested>(
    context: Context<'_>,
    nested: &N,
    parser: &mut Parser<'_>,
    do_owner: DoBlockOwner,
    row: &mut ParamRow,
) -> Result<bool, Failure>
    requires { N.IsReady nested.now }
    ensures turns { (w : Toks) (s : Scope) (t : Row) (further : Row → Parse Row) → At parser.old w s → HoldsRow parser.old.symbols row.old t → Turns HoldsRow parser.old parser.new row.new further result (named_turn context.entry.source.now (N.readers nested.now context.entry.source.now) (do_owner_of do_owner) t further w s) }
{
    if parser.lookahead(context).next().is_mark("=") {
        if row.least <= 1 {
            return default_param(context, nested, parser, do_owner, row);
        }
        return Err(Failure::Syntax);
    }
    if row.least == 0 {
        return required_param(context, parser, row);
    }
    Err(Failure::Syntax)
}

// A required parameter.
fn required_param(
    context: Context<'_>,
    parser: &mut Parser<'_>,
    row: &mut ParamRow,
) -> Result<bool, Failure>
    ensures turns { (w : Toks) (s : Scope) (t : Row) (further : Row → Parse Row) → At parser.old w s → HoldsRow parser.old.symbols row.old t → Turns HoldsRow parser.old parser.new row.new further result (required_turn context.entry.source.now t.params further w s) }
{
    let name = parser.word_name(context)?;
    parser.declare(context)?;
    parser.bump();
    row.params.push_required(name)?;
    Ok(goes_on(context, parser, row, 0))
}

// A parameter with a default, in which it is a local already.
fn default_param<N: Nested>(
    context: Context<'_>,
    nested: &N,
    parser: &mut Parser<'_>,
    do_owner: DoBlockOwner,
    row: &mut ParamRow,
) -> Result<bool, Failure>
    requires { N.IsReady nested.now }
    ensures turns { (w : Toks) (s : Scope) (t : Row) (further : Row → Parse Row) → At parser.old w s → HoldsRow parser.old.symbols row.old t → Turns HoldsRow parser.old parser.new row.new further result (default_turn context.entry.source.now (N.readers nested.now context.entry.source.now) (do_owner_of do_owner) t.params further w s) }
{
    let name = parser.word_name(context)?;
    parser.declare(context)?;
    parser.bump();
    parser.bump();
    let value = nested.argument(context, parser, do_owner)?;
    row.params.push_optional(name, value)?;
    Ok(goes_on(context, parser, row, 1))
}

// `*name`
fn left_param(
    context: Context<'_>,
    parser: &mut Parser<'_>,
    row: &mut ParamRow,
) -> Result<bool, Failure>
    ensures turns { (w : Toks) (s : Scope) (t : Row) (further : Row → Parse Row) → At parser.old w s → HoldsRow parser.old.symbols row.old t → Turns HoldsRow parser.old parser.new row.new further result (left_turn context.entry.source.now t.params further w s) }
{
    parser.bump();
    let name = parser.word_name(context)?;
    parser.declare(context)?;
    parser.bump();
    row.params.push_rest(name)?;
    Ok(goes_on(context, parser, row, 3))
}

// `&name`, behind which no other parameter stands.
fn block_param(
    context: Context<'_>,
    parser: &mut Parser<'_>,
    row: &mut ParamRow,
) -> Result<bool, Failure>
    ensures turns { (w : Toks) (s : Scope) (t : Row) (further : Row → Parse Row) → At parser.old w s → HoldsRow parser.old.symbols row.old t → Turns HoldsRow parser.old parser.new row.new further result (block_turn context.entry.source.now t.params w s) }
{
    parser.bump();
    let name = parser.word_name(context)?;
    parser.declare(context)?;
    parser.bump();
    row.params.push_block(name)?;
    row.least = 4;
    Ok(false)
}

// Whether another parameter follows, of this kind or a later one, behind a comma that is skipped.
fn goes_on(context: Context<'_>, parser: &mut Parser<'_>, row: &mut ParamRow, kind: u8) -> bool
    ensures turns { (w : Toks) (s : Scope) (ps : Params) (further : Row → Parse Row) → At parser.old w s → HoldsParams parser.old.symbols row.old.params ps → Turns HoldsRow parser.old parser.new row.new further (Ok result) (row_from context.entry.source.now ps kind further w s) }
{
    if parser.is_mark(context, ",") {
        parser.bump();
        row.least = kind;
        return true;
    }
    row.least = 4;
    false
}

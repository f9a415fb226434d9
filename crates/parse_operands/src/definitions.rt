//! Methods, classes and modules, whose bodies have locals of their own.
ghost use Rattle.std.specs.Prelude.{◌≡◌};
ghost use Rattle.token_lookahead.specs.Lookaheads.{do_owner_of};
ghost use Rattle.tree_builder.specs.Subtrees.{Holds};
ghost use Rattle.reference_parser.specs.ReadOperands.{read_method, read_class, read_module};
ghost use Rattle.parse_operands.specs.Definitions.{plain_body, class_at, module_at};
ghost use Rattle.parse_state.specs.Gives.{Reads};

use crate::behind::{constant_behind, header_behind, position_here};
use crate::ends::ended;
use parse_parts::{body, parameters, superclass};
use parse_state::{Context, Failure, Nested, Parser};
use token_lookahead::DoBlockOwner;
use tree_builder::{ParamSubtrees, Subtree, body as body_with, class, method, module_named};

/// `def`
pub fn method_definition<N: Nested>(
    context: Context<'_>,
    nested: &N,
    parser: &mut Parser<'_>,
    do_owner: DoBlockOwner,
) -> Result<Subtree, Failure>
    requires { N.IsReady nested.now }
    ensures reads { Reads Holds parser.old parser.new result (read_method context.entry.source.now (N.readers nested.now context.entry.source.now) (do_owner_of do_owner)) }
{
    let here = position_here(context, parser);
    let within = do_owner.within();
    parser.bump();
    let on_self = parser.skip_self(context)?;
    let name = parser.method_name(context, true)?;
    let around = parser.enter_body(context);
    let params = parameters(context, nested, parser, within)?;
    let code = plain_body(context, nested, parser, within)?;
    parser.leave_body(around);
    let inner = body_with(context.alloc, here, params, code)?;
    let whole = method(context.alloc, here, name, inner, on_self)?;
    ended(context, parser, whole)
}

// A body that begins here.
fn plain_body<N: Nested>(
    context: Context<'_>,
    nested: &N,
    parser: &mut Parser<'_>,
    do_owner: DoBlockOwner,
) -> Result<Subtree, Failure>
    requires { N.IsReady nested.now }
    ensures reads { Reads Holds parser.old parser.new result (plain_body context.entry.source.now (N.readers nested.now context.entry.source.now) (do_owner_of do_owner)) }
{
    let here = position_here(context, parser);
    body(context, nested, parser, do_owner, here)
}

/// `class`
pub fn class_definition<N: Nested>(
    context: Context<'_>,
    nested: &N,
    parser: &mut Parser<'_>,
    do_owner: DoBlockOwner,
) -> Result<Subtree, Failure>
    requires { N.IsReady nested.now }
    ensures reads { Reads Holds parser.old parser.new result (read_class context.entry.source.now (N.readers nested.now context.entry.source.now) (do_owner_of do_owner)) }
{
    if constant_behind(context, parser) {
        return class_at(context, nested, parser, do_owner);
    }
    Err(Failure::Syntax)
}

fn class_at<N: Nested>(
    context: Context<'_>,
    nested: &N,
    parser: &mut Parser<'_>,
    do_owner: DoBlockOwner,
) -> Result<Subtree, Failure>
    requires { N.IsReady nested.now }
    ensures reads { Reads Holds parser.old parser.new result (class_at context.entry.source.now (N.readers nested.now context.entry.source.now) (do_owner_of do_owner)) }
{
    let here = position_here(context, parser);
    let within = do_owner.within();
    parser.bump();
    let name = parser.word_name(context)?;
    parser.bump();
    let above = superclass(context, nested, parser, within)?;
    parser.expect_newline(context)?;
    let outside = parser.enter_body(context);
    let code = plain_body(context, nested, parser, within)?;
    parser.leave_body(outside);
    let params = ParamSubtrees::new(context.alloc);
    let inner = body_with(context.alloc, here, params, code)?;
    let whole = class(context.alloc, here, above, name, inner)?;
    ended(context, parser, whole)
}

/// `module`
pub fn module_definition<N: Nested>(
    context: Context<'_>,
    nested: &N,
    parser: &mut Parser<'_>,
    do_owner: DoBlockOwner,
) -> Result<Subtree, Failure>
    requires { N.IsReady nested.now }
    ensures reads { Reads Holds parser.old parser.new result (read_module context.entry.source.now (N.readers nested.now context.entry.source.now) (do_owner_of do_owner)) }
{
    if header_behind(context, parser) {
        return module_at(context, nested, parser, do_owner);
    }
    Err(Failure::Syntax)
}

fn module_at<N: Nested>(
    context: Context<'_>,
    nested: &N,
    parser: &mut Parser<'_>,
    do_owner: DoBlockOwner,
) -> Result<Subtree, Failure>
    requires { N.IsReady nested.now }
    ensures reads { Reads Holds parser.old parser.new result (module_at context.entry.source.now (N.readers nested.now context.entry.source.now) (do_owner_of do_owner)) }
{
    let here = position_here(context, parser);
    let within = do_owner.within();
    parser.bump();
    let name = parser.word_name(context)?;
    parser.bump();
    parser.bump();
    let around = parser.enter_body(context);
    let code = plain_body(context, nested, parser, within)?;
    parser.leave_body(around);
    let params = ParamSubtrees::new(context.alloc);
    let inner = body_with(context.alloc, here, params, code)?;
    let whole = module_named(context.alloc, here, name, inner)?;
    ended(context, parser, whole)
}

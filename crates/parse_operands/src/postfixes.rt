//! What stands behind an operand: calls, constants and indexes.
ghost use Rattle.std.specs.Prelude.{◌≡◌, Bool, ◌<◌, ◌≤◌, ◌-◌, suc, length, IfOk};
ghost use Rattle.ruby_lexer.specs.Bytes.{Bytes};
ghost use Rattle.ruby_lexer.specs.Pieces.{Toks};
ghost use Rattle.ruby_tree.specs.Tree as tree;
ghost use Rattle.ruby_tree.specs.Tree.{Tree};
ghost use Rattle.ruby_tree.specs.Rules.{Scope, position, next};
ghost use Rattle.ruby_tree.specs.Build.{Given};
ghost use Rattle.ruby_tree.specs.Rules as test;
ghost use Rattle.ruby_tree.specs.SourcePositions.{position_of};
ghost use Rattle.token_lookahead.specs.Lookaheads.{do_owner_of};
ghost use Rattle.tree_builder.specs.Subtrees.{Holds, IsNamed};
ghost use Rattle.reference_parser.specs.Answers.{Parse};
ghost use Rattle.reference_parser.specs.ReadItems.{Readers};
ghost use Rattle.reference_parser.specs.ReadOperands as operands;
ghost use Rattle.reference_parser.specs.ReadOperands.{postfixes, read_postfix, postfix_at, read_call, read_index, path_at, end_index};
ghost use Rattle.parse_parts.specs.Items.{HoldsGiven};
ghost use Rattle.parse_state.specs.Standing.{At};
ghost use Rattle.parse_state.specs.Gives.{Reads, ReadsWithin};
ghost use Rattle.parse_state.specs.Forms.{HoldsOperandForm};
ghost use Rattle.parse_operands.specs.Turns.{Turned, IsLonger};
ghost use Rattle.parse_operands.specs.Indexes.{called, index_from};

use crate::behind::{
    argument_behind, arguments_here, assigns_here, attribute_here, constant_behind, index_here,
    index_read_here, index_set_here, position_from, position_here,
};
use crate::primaries::primary;
use parse_parts::{ArgumentParts, call_items, items, items_behind};
use parse_state::{Context, Failure, Nested, OperandForm, Parser};
use ruby_tree::{Name, SourcePosition};
use token_lookahead::DoBlockOwner;
use tree_builder::{ElseSubtree, Subtree, call_form, path_with, send};

/// What an operand became.
#[derive(Drop)]
pub enum PostfixStep {
    /// An operand that is longer, and that may go on.
    Longer(Subtree),
    /// What it was read as at its end.
    Ended(OperandForm),
}

/// An operand, and all that stands behind it.
pub fn postfix<N: Nested>(
    context: Context<'_>,
    nested: &N,
    parser: &mut Parser<'_>,
    do_owner: DoBlockOwner,
) -> Result<OperandForm, Failure>
    requires { N.IsReady nested.now }
    ensures reads { Reads HoldsOperandForm parser.old parser.new result (read_postfix context.entry.source.now (N.readers nested.now context.entry.source.now) (do_owner_of do_owner)) }
{
    let here = position_here(context, parser);
    let operand = primary(context, nested, parser, do_owner)?;
    postfixes(context, nested, parser, do_owner, here, operand)
}

// All that stands behind an operand that begins at a position.
fn postfixes<N: Nested>(
    context: Context<'_>,
    nested: &N,
    parser: &mut Parser<'_>,
    do_owner: DoBlockOwner,
    here: SourcePosition,
    operand: Subtree,
) -> Result<OperandForm, Failure>
    requires { N.IsReady nested.now }
    ensures reads { (o : Toks) (a : Tree) → position_of here ≡ position o → Holds parser.old.symbols operand a → ReadsWithin HoldsOperandForm parser.old parser.new result (λ m. postfixes context.entry.source.now (N.readers nested.now context.entry.source.now) m (do_owner_of do_owner) o a) }
{
    let mut part = operand;
    loop {
        match go_on(context, nested, parser, do_owner, here, part)? {
            PostfixStep::Longer(longer) => part = longer,
            PostfixStep::Ended(start) => return Ok(start),
        }
    }
}

// What stands behind an operand once.
fn go_on<N: Nested>(
    context: Context<'_>,
    nested: &N,
    parser: &mut Parser<'_>,
    do_owner: DoBlockOwner,
    here: SourcePosition,
    operand: Subtree,
) -> Result<PostfixStep, Failure>
    requires { N.IsReady nested.now }
    ensures turns { (further : Tree → Parse operands.Start) (o : Toks) (a : Tree) (w : Toks) (s : Scope) → position_of here ≡ position o → Holds parser.old.symbols operand a → At parser.old w s → Turned further parser.old parser.new result (postfix_at context.entry.source.now (N.readers nested.now context.entry.source.now) further (do_owner_of do_owner) o a w s) }
    ensures shorter { IfOk result (λ t. IsLonger t → length parser.new.rest.now < length parser.old.rest.now) }
{
    if parser.is_dot(context) {
        return call_turn(context, nested, parser, do_owner, here, operand);
    }
    if parser.is_mark(context, "::") {
        return path_turn(context, parser, here, operand);
    }
    if index_here(context, parser) {
        return index_turn(context, nested, parser, here, operand);
    }
    Ok(PostfixStep::Ended(OperandForm::Operand(operand)))
}

// A call, or an attribute that is set, or a command.
fn call_turn<N: Nested>(
    context: Context<'_>,
    nested: &N,
    parser: &mut Parser<'_>,
    do_owner: DoBlockOwner,
    here: SourcePosition,
    operand: Subtree,
) -> Result<PostfixStep, Failure>
    requires { N.IsReady nested.now }
    ensures turns { (further : Tree → Parse operands.Start) (o : Toks) (a : Tree) (w : Toks) (s : Scope) → position_of here ≡ position o → Holds parser.old.symbols operand a → At parser.old w s → Turned further parser.old parser.new result (read_call context.entry.source.now (N.readers nested.now context.entry.source.now) further (do_owner_of do_owner) o a w s) }
    ensures shorter { IfOk result (λ t. IsLonger t → length parser.new.rest.now ≤ length parser.old.rest.now - 1) }
{
    let safe = parser.is_mark(context, "&.");
    let may_be_set = attribute_here(context, parser);
    parser.bump();
    let position = position_from(context, parser, here);
    let name = parser.method_name(context, false)?;
    if arguments_here(context, parser) {
        return Ok(PostfixStep::Ended(OperandForm::Command(safe, operand, position, name)));
    }
    if assigns_here(context, parser) {
        if may_be_set {
            return Ok(PostfixStep::Ended(OperandForm::Attribute(operand, position, name)));
        }
        return Err(Failure::Syntax);
    }
    called(
        context, nested, parser, do_owner, position, safe, operand, name,
    )
}

// The call of a method whose name was read, with what it is given.
#[allow(clippy::too_many_arguments)]
fn called<N: Nested>(
    context: Context<'_>,
    nested: &N,
    parser: &mut Parser<'_>,
    do_owner: DoBlockOwner,
    position: SourcePosition,
    safe: bool,
    operand: Subtree,
    name: Name,
) -> Result<PostfixStep, Failure>
    requires { N.IsReady nested.now }
    ensures turns { (further : Tree → Parse operands.Start) (o : tree.SourcePosition) (b : Bool) (a : Tree) (m : Bytes) (w : Toks) (s : Scope) → safe ≡ b → position_of position ≡ o → Holds parser.old.symbols operand a → IsNamed parser.old.symbols name m → At parser.old w s → Turned further parser.old parser.new result (called context.entry.source.now (N.readers nested.now context.entry.source.now) further (do_owner_of do_owner) o b a m w s) }
    ensures shorter { IfOk result (λ t. IsLonger t → length parser.new.rest.now ≤ length parser.old.rest.now) }
{
    let ArgumentParts {
        arguments,
        spread,
        value,
        block,
    } = call_items(context, nested, parser, do_owner)?;
    let alloc = context.alloc;
    let whole = call_form(
        alloc, position, safe, operand, arguments, spread, value, name, block,
    )?;
    Ok(PostfixStep::Longer(whole))
}

// A constant behind `::`.
fn path_turn(
    context: Context<'_>,
    parser: &mut Parser<'_>,
    here: SourcePosition,
    operand: Subtree,
) -> Result<PostfixStep, Failure>
    ensures turns { (Q : Readers) (further : Tree → Parse operands.Start) (o : Toks) (a : Tree) (w : Toks) (s : Scope) → position_of here ≡ position o → Holds parser.old.symbols operand a → At parser.old w s → Turned further parser.old parser.new result (path_at context.entry.source.now Q further o a w s) }
    ensures shorter { IfOk result (λ t. IsLonger t → length parser.new.rest.now ≤ length parser.old.rest.now - 1) }
{
    if constant_behind(context, parser) {
        parser.bump();
        let name = parser.word_name(context)?;
        parser.bump();
        let whole = path_with(context.alloc, here, operand, name)?;
        return Ok(PostfixStep::Longer(whole));
    }
    Err(Failure::Syntax)
}

// An index, which may be set.
fn index_turn<N: Nested>(
    context: Context<'_>,
    nested: &N,
    parser: &mut Parser<'_>,
    here: SourcePosition,
    operand: Subtree,
) -> Result<PostfixStep, Failure>
    requires { N.IsReady nested.now }
    ensures turns { (further : Tree → Parse operands.Start) (o : Toks) (a : Tree) (w : Toks) (s : Scope) → position_of here ≡ position o → Holds parser.old.symbols operand a → At parser.old w s → Turned further parser.old parser.new result (read_index context.entry.source.now (N.readers nested.now context.entry.source.now) further o a w s) }
    ensures shorter { IfOk result (λ t. IsLonger t → length parser.new.rest.now ≤ length parser.old.rest.now - 1) }
{
    let position = position_from(context, parser, here);
    let begins = argument_behind(context, parser);
    parser.bump();
    if begins {
        return index_from(context, nested, parser, position, operand);
    }
    let given = items(context, nested, parser, DoBlockOwner::Own)?;
    end_index(context, parser, position, operand, given)
}

// An index whose first item is no pair with a label, nor is it spread.
fn index_from<N: Nested>(
    context: Context<'_>,
    nested: &N,
    parser: &mut Parser<'_>,
    position: SourcePosition,
    operand: Subtree,
) -> Result<PostfixStep, Failure>
    requires { N.IsReady nested.now }
    ensures turns { (further : Tree → Parse operands.Start) (o : Toks) (a : Tree) (v : Toks) (s : Scope) → position_of position ≡ test.position_with o v → Holds parser.old.symbols operand a → At parser.old (next v) s → Turned further parser.old parser.new result (index_from context.entry.source.now (N.readers nested.now context.entry.source.now) further o a v s) }
    ensures shorter { IfOk result (λ t. IsLonger t → length parser.new.rest.now ≤ length parser.old.rest.now) }
{
    let first_spot = position_here(context, parser);
    let first = nested.argument(context, parser, DoBlockOwner::Own)?;
    if index_set_here(context, parser) {
        parser.bump();
        return Ok(PostfixStep::Ended(OperandForm::Element(operand, position, first)));
    }
    let given = items_behind(
        context,
        nested,
        parser,
        DoBlockOwner::Own,
        first_spot,
        first,
    )?;
    end_index(context, parser, position, operand, given)
}

// The end of an index that is read.
fn end_index(
    context: Context<'_>,
    parser: &mut Parser<'_>,
    position: SourcePosition,
    operand: Subtree,
    given: ArgumentParts,
) -> Result<PostfixStep, Failure>
    ensures turns { (Q : Readers) (further : Tree → Parse operands.Start) (o : Toks) (a : Tree) (v : Toks) (g : Given) (w : Toks) (s : Scope) → position_of position ≡ test.position_with o v → Holds parser.old.symbols operand a → HoldsGiven parser.old.symbols given g → At parser.old w s → Turned further parser.old parser.new result (end_index context.entry.source.now Q further o a v g w s) }
    ensures shorter { IfOk result (λ t. IsLonger t → length parser.new.rest.now ≤ length parser.old.rest.now) }
{
    if index_read_here(context, parser) {
        parser.bump();
        let name = parser.intern(context, b"[]")?;
        let receiver = ElseSubtree::some(context.alloc, operand)?;
        let ArgumentParts {
            arguments,
            spread,
            value,
            block,
        } = given;
        return Ok(PostfixStep::Longer(send(
            position, receiver, arguments, spread, value, name, false, block,
        )));
    }
    Err(Failure::Syntax)
}

//! Arguments, and commands where one may stand.
ghost use Rattle.std.specs.Prelude.{◌≡◌};
ghost use Rattle.ruby_lexer.specs.Bytes.{Bytes};
ghost use Rattle.ruby_lexer.specs.Pieces.{Toks};
ghost use Rattle.ruby_tree.specs.Tree.{Tree};
ghost use Rattle.ruby_tree.specs.Rules.{position};
ghost use Rattle.ruby_tree.specs.SourcePositions.{position_of};
ghost use Rattle.token_lookahead.specs.Lookaheads.{do_owner_of};
ghost use Rattle.tree_builder.specs.Subtrees.{IsNamed, Holds};
ghost use Rattle.reference_parser.specs.ReadItems.{Readers};
ghost use Rattle.reference_parser.specs.ReadOperands as operands;
ghost use Rattle.reference_parser.specs.ReadStatements.{unassigned, start_by, read_unset, read_settable, read_arg, read_assigned_value};
ghost use Rattle.parse_state.specs.Gives.{Reads};
ghost use Rattle.parse_state.specs.Forms.{HoldsOperandForm};
ghost use Rattle.parse_statements.specs.Arguments.{operated, dotted_command};

use crate::commands::{command, command_behind};
use crate::places::{set_attribute, set_element};
use crate::variables::variable;
use parse_state::{Context, Failure, Nested, OperandForm, Operators, Parser};
use ruby_tree::{Name, SourcePosition};
use token_lookahead::DoBlockOwner;
use tree_builder::Subtree;

/// An argument.
///
/// # Errors
///
/// Where the grammar derives none here, where symbols nest too deep, and where there is not memory enough.
pub fn argument<N: Operators>(
    context: Context<'_>,
    nested: &N,
    parser: &mut Parser<'_>,
    do_owner: DoBlockOwner,
) -> Result<Subtree, Failure>
    requires { N.IsReady nested.now }
    ensures reads { Reads Holds parser.old parser.new result (read_arg context.entry.source.now (N.readers nested.now context.entry.source.now) (do_owner_of do_owner)) }
{
    settable(context, nested, parser, do_owner, false)
}

/// An argument or a command.
///
/// # Errors
///
/// Where the grammar derives none here, where symbols nest too deep, and where there is not memory enough.
pub fn assigned_value<N: Operators>(
    context: Context<'_>,
    nested: &N,
    parser: &mut Parser<'_>,
    do_owner: DoBlockOwner,
) -> Result<Subtree, Failure>
    requires { N.IsReady nested.now }
    ensures reads { Reads Holds parser.old parser.new result (read_assigned_value context.entry.source.now (N.readers nested.now context.entry.source.now) (do_owner_of do_owner)) }
{
    if parser.begins_command(context) {
        return command(context, nested, parser, do_owner);
    }
    settable(context, nested, parser, do_owner, true)
}

// An argument, or, where one may stand, a command behind a dot.
fn settable<N: Operators>(
    context: Context<'_>,
    nested: &N,
    parser: &mut Parser<'_>,
    do_owner: DoBlockOwner,
    may_command: bool,
) -> Result<Subtree, Failure>
    requires { N.IsReady nested.now }
    ensures reads { Reads Holds parser.old parser.new result (read_settable context.entry.source.now (N.readers nested.now context.entry.source.now) may_command (do_owner_of do_owner)) }
{
    if parser.lookahead(context).sets() {
        return variable(context, nested, parser, do_owner);
    }
    unset(context, nested, parser, do_owner, may_command)
}

// The same where no variable is set.
fn unset<N: Operators>(
    context: Context<'_>,
    nested: &N,
    parser: &mut Parser<'_>,
    do_owner: DoBlockOwner,
    may_command: bool,
) -> Result<Subtree, Failure>
    requires { N.IsReady nested.now }
    ensures reads { Reads Holds parser.old parser.new result (read_unset context.entry.source.now (N.readers nested.now context.entry.source.now) may_command (do_owner_of do_owner)) }
{
    if parser.begins_operator(context) {
        let part = nested.level(context, parser, do_owner)?;
        return unassigned(context, parser, part);
    }
    let here = parser.lookahead(context).position();
    let start = nested.postfix(context, parser, do_owner)?;
    behind_start(context, nested, parser, do_owner, may_command, here, start)
}

// A part that nothing is assigned to.
fn unassigned(context: Context<'_>, parser: &Parser<'_>, part: Subtree) -> Result<Subtree, Failure>
    ensures reads { (Q : Readers) (a : Tree) → Holds parser.now.symbols part a → Reads Holds parser.now parser.now result (unassigned context.entry.source.now Q a) }
{
    if parser.lookahead(context).assigns() {
        return Err(Failure::Syntax);
    }
    Ok(part)
}

// What begins with an operand at a position: operators behind it, an assignment, or a command, where one may stand.
fn behind_start<N: Operators>(
    context: Context<'_>,
    nested: &N,
    parser: &mut Parser<'_>,
    do_owner: DoBlockOwner,
    may_command: bool,
    here: SourcePosition,
    start: OperandForm,
) -> Result<Subtree, Failure>
    requires { N.IsReady nested.now }
    ensures reads { (o : Toks) (t : operands.Start) → position_of here ≡ position o → HoldsOperandForm parser.old.symbols start t → Reads Holds parser.old parser.new result (start_by context.entry.source.now (N.readers nested.now context.entry.source.now) may_command (do_owner_of do_owner) o t) }
{
    match start {
        OperandForm::Operand(operand) => {
            behind_operand(context, nested, parser, do_owner, here, operand)
        }
        OperandForm::Attribute(receiver, position, name) => {
            set_attribute(context, nested, parser, do_owner, position, receiver, name)
        }
        OperandForm::Element(receiver, position, index) => {
            set_element(context, nested, parser, do_owner, position, receiver, index)
        }
        OperandForm::Command(safe, receiver, position, name) => dotted_command(
            context,
            nested,
            parser,
            do_owner,
            may_command,
            safe,
            receiver,
            position,
            name,
        ),
    }
}

// The operators behind an operand that begins at a position.
fn behind_operand<N: Operators>(
    context: Context<'_>,
    nested: &N,
    parser: &mut Parser<'_>,
    do_owner: DoBlockOwner,
    here: SourcePosition,
    operand: Subtree,
) -> Result<Subtree, Failure>
    requires { N.IsReady nested.now }
    ensures reads { (o : Toks) (a : Tree) → position_of here ≡ position o → Holds parser.old.symbols operand a → Reads Holds parser.old parser.new result (operated context.entry.source.now (N.readers nested.now context.entry.source.now) (do_owner_of do_owner) o a) }
{
    let power = nested.raised(context, parser, do_owner, here, operand)?;
    let part = nested.climb(context, parser, do_owner, here, power)?;
    unassigned(context, parser, part)
}

// A command behind a dot, where one may stand.
#[allow(clippy::too_many_arguments)]
fn dotted_command<N: Nested>(
    context: Context<'_>,
    nested: &N,
    parser: &mut Parser<'_>,
    do_owner: DoBlockOwner,
    may_command: bool,
    safe: bool,
    receiver: Subtree,
    position: SourcePosition,
    name: Name,
) -> Result<Subtree, Failure>
    requires { N.IsReady nested.now }
    ensures reads { (a : Tree) (m : Bytes) → Holds parser.old.symbols receiver a → IsNamed parser.old.symbols name m → Reads Holds parser.old parser.new result (dotted_command context.entry.source.now (N.readers nested.now context.entry.source.now) (do_owner_of do_owner) may_command safe a (position_of position) m) }
{
    if may_command {
        return command_behind(
            context, nested, parser, do_owner, safe, receiver, position, name,
        );
    }
    Err(Failure::Syntax)
}

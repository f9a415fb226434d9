//! What one symbol of the grammar asks of another that nests in it.
ghost use Rattle.std.specs.Prelude.{◌≡◌, List, ℕ};
ghost use Rattle.token_lookahead.specs.Lookaheads.{do_owner_of};
ghost use Rattle.tree_builder.specs.Subtrees.{Holds, HoldsOther};
ghost use Rattle.reference_parser.specs.ReadItems.{Readers};
ghost use Rattle.parse_state.specs.Gives.{Reads};

use crate::{Context, Failure, Parser};
use token_lookahead::DoBlockOwner;
use tree_builder::{ElseSubtree, Subtree};

/// The symbols that nest.
#[derive(Clone, Copy, Debug, PartialEq, Eq, Drop)]
pub enum NestedSymbol {
    /// Statements.
    Statements,
    /// An expression.
    Expression,
    /// A test, which may begin with `not`.
    Test,
    /// An argument or a command.
    AssignedValue,
    /// An argument.
    Argument,
    /// What stands behind a unary minus.
    Minus,
    /// What stands behind `**`.
    Power,
    /// What stands behind `!`, `~` and a unary plus.
    UnaryOperand,
    /// `elsif` and `else`, up to `end`.
    ElseBranches,
}

/// The readers of the symbols that nest in one that is read. Each is told whose a `do` is that stands behind a call.
pub trait Nested {
    /// What they take of a text, as functions on lists.
    ghost readers: { Self → List ℕ → Readers };

    /// They may be asked.
    ghost IsReady: { Self → Type 0 };

    /// Statements.
    fn statements(
        &self,
        context: Context<'_>,
        parser: &mut Parser<'_>,
        do_owner: DoBlockOwner,
    ) -> Result<Subtree, Failure>
        requires { IsReady self.now }
        ensures reads { Reads Holds parser.old parser.new result ((readers self.now context.entry.source.now).stmts (do_owner_of do_owner)) };

    /// An expression.
    fn expression(
        &self,
        context: Context<'_>,
        parser: &mut Parser<'_>,
        do_owner: DoBlockOwner,
    ) -> Result<Subtree, Failure>
        requires { IsReady self.now }
        ensures reads { Reads Holds parser.old parser.new result ((readers self.now context.entry.source.now).expr (do_owner_of do_owner)) };

    /// A test.
    fn test(
        &self,
        context: Context<'_>,
        parser: &mut Parser<'_>,
        do_owner: DoBlockOwner,
    ) -> Result<Subtree, Failure>
        requires { IsReady self.now }
        ensures reads { Reads Holds parser.old parser.new result ((readers self.now context.entry.source.now).test (do_owner_of do_owner)) };

    /// An argument or a command.
    fn assigned_value(
        &self,
        context: Context<'_>,
        parser: &mut Parser<'_>,
        do_owner: DoBlockOwner,
    ) -> Result<Subtree, Failure>
        requires { IsReady self.now }
        ensures reads { Reads Holds parser.old parser.new result ((readers self.now context.entry.source.now).assigned_value (do_owner_of do_owner)) };

    /// An argument.
    fn argument(
        &self,
        context: Context<'_>,
        parser: &mut Parser<'_>,
        do_owner: DoBlockOwner,
    ) -> Result<Subtree, Failure>
        requires { IsReady self.now }
        ensures reads { Reads Holds parser.old parser.new result ((readers self.now context.entry.source.now).arg (do_owner_of do_owner)) };

    /// What stands behind a unary minus.
    fn minus(
        &self,
        context: Context<'_>,
        parser: &mut Parser<'_>,
        do_owner: DoBlockOwner,
    ) -> Result<Subtree, Failure>
        requires { IsReady self.now }
        ensures reads { Reads Holds parser.old parser.new result ((readers self.now context.entry.source.now).minus (do_owner_of do_owner)) };

    /// What stands behind `**`.
    fn power(
        &self,
        context: Context<'_>,
        parser: &mut Parser<'_>,
        do_owner: DoBlockOwner,
    ) -> Result<Subtree, Failure>
        requires { IsReady self.now }
        ensures reads { Reads Holds parser.old parser.new result ((readers self.now context.entry.source.now).power (do_owner_of do_owner)) };

    /// What stands behind `!`, `~` and a unary plus.
    fn unary_operand(
        &self,
        context: Context<'_>,
        parser: &mut Parser<'_>,
        do_owner: DoBlockOwner,
    ) -> Result<Subtree, Failure>
        requires { IsReady self.now }
        ensures reads { Reads Holds parser.old parser.new result ((readers self.now context.entry.source.now).unary_operand (do_owner_of do_owner)) };

    /// `elsif` and `else`, up to `end`.
    fn else_branches(
        &self,
        context: Context<'_>,
        parser: &mut Parser<'_>,
        do_owner: DoBlockOwner,
    ) -> Result<ElseSubtree, Failure>
        requires { IsReady self.now }
        ensures reads { Reads HoldsOther parser.old parser.new result ((readers self.now context.entry.source.now).else_branches (do_owner_of do_owner)) };
}

//! What nests in a symbol that is read.
ghost use Rattle.std.specs.Prelude.{◌≡◌};
ghost use Rattle.token_lookahead.specs.Lookaheads.{do_owner_of};
ghost use Rattle.reference_parser.specs.ReadStatements.{readers};
ghost use Rattle.parse_state.specs.Gives.{Reads};
ghost use Rattle.parse_program.specs.Knot.{HoldsFound, reader_of};

use crate::founds::{Found, other, part};
use parse_state::{
    Context, Failure, Nested, NestedSymbol, OperandForm, Operands, Operators, Parser,
};
use ruby_tree::SourcePosition;
use token_lookahead::DoBlockOwner;
use tree_builder::{ElseSubtree, Subtree};

/// The symbols that nest, as a function reads them, which may be the one that asks.
#[derive(Drop)]
pub(crate) struct Below<F: Fn(NestedSymbol, Context<'_>, &mut Parser<'_>, DoBlockOwner) -> Found> {
    /// Reads a symbol.
    pub read: F,
    /// How deep it reads symbols that nest in one another.
    pub depth: u64,
}

impl<F: Fn(NestedSymbol, Context<'_>, &mut Parser<'_>, DoBlockOwner) -> Found> Nested for Below<F> {
    ghost readers = { λ it source. readers source it.depth };

    ghost IsReady = { λ it. ((symbol : _) (context : _) (parser : _) (do_owner : _) → F.pre it.read symbol context parser do_owner) × ((symbol : _) (context : _) (parser : _) (do_owner : _) (result : _) (after : _) → F.post it.read symbol context parser do_owner result after → Reads HoldsFound parser.now after.now result (reader_of (readers context.source.now it.depth) symbol (do_owner_of do_owner))) };

    fn statements(
        &self,
        context: Context<'_>,
        parser: &mut Parser<'_>,
        do_owner: DoBlockOwner,
    ) -> Result<Subtree, Failure> {
        part((self.read)(NestedSymbol::Statements, context, parser, do_owner))
    }

    fn expression(
        &self,
        context: Context<'_>,
        parser: &mut Parser<'_>,
        do_owner: DoBlockOwner,
    ) -> Result<Subtree, Failure> {
        part((self.read)(NestedSymbol::Expression, context, parser, do_owner))
    }

    fn test(
        &self,
        context: Context<'_>,
        parser: &mut Parser<'_>,
        do_owner: DoBlockOwner,
    ) -> Result<Subtree, Failure> {
        part((self.read)(NestedSymbol::Test, context, parser, do_owner))
    }

    fn assigned_value(
        &self,
        context: Context<'_>,
        parser: &mut Parser<'_>,
        do_owner: DoBlockOwner,
    ) -> Result<Subtree, Failure> {
        part((self.read)(NestedSymbol::AssignedValue, context, parser, do_owner))
    }

    fn argument(
        &self,
        context: Context<'_>,
        parser: &mut Parser<'_>,
        do_owner: DoBlockOwner,
    ) -> Result<Subtree, Failure> {
        part((self.read)(NestedSymbol::Argument, context, parser, do_owner))
    }

    fn minus(
        &self,
        context: Context<'_>,
        parser: &mut Parser<'_>,
        do_owner: DoBlockOwner,
    ) -> Result<Subtree, Failure> {
        part((self.read)(NestedSymbol::Minus, context, parser, do_owner))
    }

    fn power(
        &self,
        context: Context<'_>,
        parser: &mut Parser<'_>,
        do_owner: DoBlockOwner,
    ) -> Result<Subtree, Failure> {
        part((self.read)(NestedSymbol::Power, context, parser, do_owner))
    }

    fn unary_operand(
        &self,
        context: Context<'_>,
        parser: &mut Parser<'_>,
        do_owner: DoBlockOwner,
    ) -> Result<Subtree, Failure> {
        part((self.read)(NestedSymbol::UnaryOperand, context, parser, do_owner))
    }

    fn else_branches(
        &self,
        context: Context<'_>,
        parser: &mut Parser<'_>,
        do_owner: DoBlockOwner,
    ) -> Result<ElseSubtree, Failure> {
        other(
            context,
            (self.read)(NestedSymbol::ElseBranches, context, parser, do_owner),
        )
    }
}

impl<F: Fn(NestedSymbol, Context<'_>, &mut Parser<'_>, DoBlockOwner) -> Found> Operands
    for Below<F> {
    fn postfix(
        &self,
        context: Context<'_>,
        parser: &mut Parser<'_>,
        do_owner: DoBlockOwner,
    ) -> Result<OperandForm, Failure> {
        parse_operands::postfix(context, self, parser, do_owner)
    }
}

impl<F: Fn(NestedSymbol, Context<'_>, &mut Parser<'_>, DoBlockOwner) -> Found> Operators
    for Below<F> {
    fn level(
        &self,
        context: Context<'_>,
        parser: &mut Parser<'_>,
        do_owner: DoBlockOwner,
    ) -> Result<Subtree, Failure> {
        parse_operators::level(context, self, parser, do_owner)
    }

    fn climb(
        &self,
        context: Context<'_>,
        parser: &mut Parser<'_>,
        do_owner: DoBlockOwner,
        here: SourcePosition,
        left: Subtree,
    ) -> Result<Subtree, Failure> {
        parse_operators::climb(context, self, parser, do_owner, here, left)
    }

    fn raised(
        &self,
        context: Context<'_>,
        parser: &mut Parser<'_>,
        do_owner: DoBlockOwner,
        here: SourcePosition,
        left: Subtree,
    ) -> Result<Subtree, Failure> {
        parse_operators::raised(context, self, parser, do_owner, here, left)
    }
}

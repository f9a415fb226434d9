//! What one layer of the parser asks of another that stands beside it, of the same symbols that nest.
//!
//! Each promises what the function of its name reads in its own crate, so that the layers are proved side by side.
ghost use Rattle.std.specs.Prelude.{◌≡◌};
ghost use Rattle.ruby_lexer.specs.Pieces.{Toks};
ghost use Rattle.ruby_tree.specs.Tree.{Tree};
ghost use Rattle.ruby_tree.specs.Rules.{position};
ghost use Rattle.ruby_tree.specs.SourcePositions.{position_of};
ghost use Rattle.token_lookahead.specs.Lookaheads.{do_owner_of};
ghost use Rattle.tree_builder.specs.Subtrees.{Holds};
ghost use Rattle.reference_parser.specs.ReadOperands.{read_postfix};
ghost use Rattle.reference_parser.specs.ReadLevels.{all_levels, climb, raised, read_level};
ghost use Rattle.parse_state.specs.Gives.{Reads};
ghost use Rattle.parse_state.specs.Forms.{HoldsOperandForm};

use crate::{Context, Failure, Nested, OperandForm, Parser};
use ruby_tree::SourcePosition;
use token_lookahead::DoBlockOwner;
use tree_builder::Subtree;

/// The operands over the symbols that nest in them.
pub trait Operands: Nested {
    /// An operand, and all that stands behind it.
    fn postfix(
        &self,
        context: Context<'_>,
        parser: &mut Parser<'_>,
        do_owner: DoBlockOwner,
    ) -> Result<OperandForm, Failure>
        requires { Self.IsReady self.now }
        ensures reads { Reads HoldsOperandForm parser.old parser.new result (read_postfix context.entry.source.now (Self.readers self.now context.entry.source.now) (do_owner_of do_owner)) };
}

/// The operators over the operands and the symbols that nest in them.
pub trait Operators: Operands {
    /// An operand with the binary operators behind it.
    fn level(
        &self,
        context: Context<'_>,
        parser: &mut Parser<'_>,
        do_owner: DoBlockOwner,
    ) -> Result<Subtree, Failure>
        requires { Self.IsReady self.now }
        ensures reads { Reads Holds parser.old parser.new result (read_level context.entry.source.now (Self.readers self.now context.entry.source.now) all_levels (do_owner_of do_owner)) };

    /// The binary operators behind an operand that begins at the position.
    fn climb(
        &self,
        context: Context<'_>,
        parser: &mut Parser<'_>,
        do_owner: DoBlockOwner,
        here: SourcePosition,
        left: Subtree,
    ) -> Result<Subtree, Failure>
        requires { Self.IsReady self.now }
        ensures reads { (o : Toks) (a : Tree) → position_of here ≡ position o → Holds parser.old.symbols left a → Reads Holds parser.old parser.new result (climb context.entry.source.now (Self.readers self.now context.entry.source.now) all_levels (do_owner_of do_owner) o a) };

    /// `**` and what stands behind it, behind an operand that begins at the position.
    fn raised(
        &self,
        context: Context<'_>,
        parser: &mut Parser<'_>,
        do_owner: DoBlockOwner,
        here: SourcePosition,
        left: Subtree,
    ) -> Result<Subtree, Failure>
        requires { Self.IsReady self.now }
        ensures reads { (o : Toks) (a : Tree) → position_of here ≡ position o → Holds parser.old.symbols left a → Reads Holds parser.old parser.new result (raised context.entry.source.now (Self.readers self.now context.entry.source.now) (do_owner_of do_owner) o a) };
}

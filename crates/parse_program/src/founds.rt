//! Parts as one function gives them for each symbol: as a part that may be missing, as only what stands behind `elsif` and `else` may be.
ghost use Rattle.std.specs.Prelude.{◌≡◌};
ghost use Rattle.ruby_tree.specs.Tree.{Tree, Other};
ghost use Rattle.tree_builder.specs.Subtrees.{Holds, HoldsOther};
ghost use Rattle.reference_parser.specs.Answers.{Answer};
ghost use Rattle.parse_state.specs.declared.standing.Parser.{Parser};
ghost use Rattle.parse_state.specs.Gives.{Gives};
ghost use Rattle.parse_program.specs.Knot.{HoldsFound, there};

use parse_state::{Context, Failure};
use tree_builder::{ElseSubtree, Subtree};

/// What is read of a symbol that nests: a part, or nothing where it may be missing.
pub(crate) type Found = Result<Option<Subtree>, Failure>;

/// A part that is there.
///
/// # Errors
///
/// Where it was not read.
pub(crate) fn found(part: Result<Subtree, Failure>) -> Found
    ensures { (p q : Parser) (a : Answer Tree) → Gives Holds p q part a → Gives HoldsFound p q result (there a) }
{
    Ok(Some(part?))
}

/// A part that may be missing.
///
/// # Errors
///
/// Where it was not read.
pub(crate) fn found_other(part: Result<ElseSubtree, Failure>) -> Found
    ensures { (p q : Parser) (a : Answer Other) → Gives HoldsOther p q part a → Gives HoldsFound p q result a }
{
    Ok(part?.into_part())
}

/// The part, of a symbol that is always there.
///
/// # Errors
///
/// Where it was not read.
pub(crate) fn part(found: Found) -> Result<Subtree, Failure>
    ensures { (p q : Parser) (a : Answer Tree) → Gives HoldsFound p q found (there a) → Gives Holds p q result a }
{
    match found? {
        Some(part) => Ok(part),
        // (only what stands behind `elsif` and `else` may be missing)
        None => Err(Failure::Syntax),
    }
}

/// The part, which may be missing.
///
/// # Errors
///
/// Where it was not read, and where there is not memory enough.
pub(crate) fn other(context: Context<'_>, found: Found) -> Result<ElseSubtree, Failure>
    ensures { (p q : Parser) (a : Answer Other) → Gives HoldsFound p q found a → Gives HoldsOther p q result a }
{
    match found? {
        Some(part) => Ok(ElseSubtree::some(context.alloc, part)?),
        None => Ok(ElseSubtree::none()),
    }
}

//! The levels, each above the one that binds tighter.
ghost use Rattle.std.specs.Prelude.{◌≡◌};
ghost use Rattle.ruby_lexer.specs.Pieces.{seen_all};
ghost use Rattle.reference_parser.specs.ReadLevels.{all_levels};
ghost use Rattle.parse_operators.specs.Levels.{levels_of, operation_of, joins};

use crate::operations::BinaryOperation;
use token_lookahead::Lookahead;

/// The levels of binary operators, from the tightest on.
#[derive(Clone, Copy, Debug, PartialEq, Eq, Drop)]
pub enum PrecedenceLevel {
    /// `*`, `/` and `%`
    Product,
    /// `+` and `-`
    Sum,
    /// `<<` and `>>`
    Shift,
    /// `&`
    Intersection,
    /// `|` and `^`
    Union,
    /// `<`, `<=`, `>` and `>=`
    Order,
    /// `<=>`, `==`, `===` and `!=`, one of them
    Equality,
    /// `&&`
    Conjunctions,
    /// `||`
    Disjunctions,
    /// `..` and `...`, one of them
    Ranges,
    /// `a ? b : c`
    Conditional,
}

impl PrecedenceLevel {
    /// All of them, from the tightest on.
    pub fn all() -> &'static [PrecedenceLevel]
        ensures { levels_of result.now ≡ all_levels }
    {
        &[
            PrecedenceLevel::Product,
            PrecedenceLevel::Sum,
            PrecedenceLevel::Shift,
            PrecedenceLevel::Intersection,
            PrecedenceLevel::Union,
            PrecedenceLevel::Order,
            PrecedenceLevel::Equality,
            PrecedenceLevel::Conjunctions,
            PrecedenceLevel::Disjunctions,
            PrecedenceLevel::Ranges,
            PrecedenceLevel::Conditional,
        ]
    }

    /// Whether an operator stands here that joins operands of this level to the left.
    pub fn joins(self, lookahead: Lookahead<'_>) -> bool
        ensures { result ≡ joins lookahead.entry.source.now self (seen_all lookahead.entry.rest.now) }
    {
        match self {
            PrecedenceLevel::Product => lookahead.is_product(),
            PrecedenceLevel::Sum => lookahead.is_sum(),
            PrecedenceLevel::Shift => lookahead.is_shift(),
            PrecedenceLevel::Intersection => lookahead.is_intersection(),
            PrecedenceLevel::Union => lookahead.is_union(),
            PrecedenceLevel::Order => lookahead.is_order(),
            PrecedenceLevel::Conjunctions => lookahead.is_mark("&&"),
            PrecedenceLevel::Disjunctions => lookahead.is_mark("||"),
            PrecedenceLevel::Equality | PrecedenceLevel::Ranges | PrecedenceLevel::Conditional =>
                false,
        }
    }

    /// What such an operator makes of its operands.
    pub fn operation(self) -> BinaryOperation
        ensures { result ≡ operation_of self }
    {
        match self {
            PrecedenceLevel::Conjunctions => BinaryOperation::Both,
            PrecedenceLevel::Disjunctions => BinaryOperation::Either,
            _ => BinaryOperation::Sent,
        }
    }
}

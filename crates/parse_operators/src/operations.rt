//! What an operator makes of its two operands.
ghost use Rattle.std.specs.Prelude.{◌≡◌, codes, Ok};
ghost use Rattle.ruby_lexer.specs.Pieces.{Toks, seen_all};
ghost use Rattle.ruby_tree.specs.Tree.{Tree, Trees, no_more};
ghost use Rattle.ruby_tree.specs.Rules.{Scope, position};
ghost use Rattle.ruby_tree.specs.Build.{one, sent, binary};
ghost use Rattle.ruby_tree.specs.SourcePositions.{position_of};
ghost use Rattle.tree_builder.specs.Subtrees.{Holds, HoldsAll};
ghost use Rattle.reference_parser.specs.Answers.{Answer, taken};
ghost use Rattle.parse_state.specs.declared.standing.Parser.{Parser};
ghost use Rattle.parse_state.specs.Standing.{At, Later};
ghost use Rattle.parse_state.specs.Gives.{Gives};
ghost use Rattle.parse_operators.specs.Levels.{make_of, make_with};

use parse_state::{Context, Failure, Parser, position_with};
use ruby_tree::SourcePosition;
use token_lookahead::Lookahead;
use tree_builder::{Subtree, Subtrees};

/// What an operator makes of its two operands.
#[derive(Clone, Copy, Debug, PartialEq, Eq, Drop)]
pub enum BinaryOperation {
    /// The operator is sent.
    Sent,
    /// `a != b`, which is `!(a == b)`
    Differs,
    /// `a && b`
    Both,
    /// `a || b`
    Either,
    /// `a..b`
    Closed,
    /// `a...b`
    HalfOpen,
}

/// The tree of an operation, where its second operand was read. It stands apart from what reads that operand, whose call on the stack would be larger by all that lets a tree go.
///
/// # Errors
///
/// Where the second operand was not read, and where there is not memory enough.
#[inline(never)]
pub fn made_with(
    context: Context<'_>,
    parser: &mut Parser<'_>,
    operation: BinaryOperation,
    here: SourcePosition,
    operator: Lookahead<'_>,
    left: Subtree,
    right: Result<Subtree, Failure>,
) -> Result<Subtree, Failure>
    ensures gives { (p : Parser) (o v : Toks) (a : Tree) (b : Answer Tree) → position_of here ≡ position o → operator.entry.source.now ≡ context.entry.source.now → seen_all operator.entry.rest.now ≡ v → Holds p.symbols left a → Gives Holds p parser.old right b → Gives Holds p parser.new result (make_with context.entry.source.now operation o v a b) }
    ensures later { (p : Parser) (b : Answer Tree) (x : Subtree) → Gives Holds p parser.old right b → result ≡ Ok x → Later p parser.new }
{
    let right = right?;
    made(context, parser, operation, here, operator, left, right)
}

// The tree of an operation. The first operand begins at the position, and the operator is the first token of the lookahead.
fn made(
    context: Context<'_>,
    parser: &mut Parser<'_>,
    operation: BinaryOperation,
    here: SourcePosition,
    operator: Lookahead<'_>,
    left: Subtree,
    right: Subtree,
) -> Result<Subtree, Failure>
    ensures gives { (o v : Toks) (a b : Tree) → position_of here ≡ position o → operator.entry.source.now ≡ context.entry.source.now → seen_all operator.entry.rest.now ≡ v → Holds parser.old.symbols left a → Holds parser.old.symbols right b → (w : Toks) (s : Scope) → At parser.old w s → Gives Holds parser.old parser.new result (taken (make_of context.entry.source.now operation o v a b) w s) }
    ensures later { (x : Subtree) → result ≡ Ok x → Later parser.old parser.new }
{
    let alloc = context.alloc;
    match operation {
        BinaryOperation::Sent => operated(context, parser, here, operator, left, right),
        BinaryOperation::Differs => {
            different(context, parser, position_with(here, operator), left, right)
        }
        BinaryOperation::Both => Ok(tree_builder::conjunction(alloc, here, left, right)?),
        BinaryOperation::Either => Ok(tree_builder::disjunction(alloc, here, left, right)?),
        BinaryOperation::Closed => Ok(tree_builder::range(alloc, here, left, right, false)?),
        BinaryOperation::HalfOpen => Ok(tree_builder::range(alloc, here, left, right, true)?),
    }
}

/// An operator that is sent.
#[inline(never)]
pub fn operated(
    context: Context<'_>,
    parser: &mut Parser<'_>,
    here: SourcePosition,
    operator: Lookahead<'_>,
    left: Subtree,
    right: Subtree,
) -> Result<Subtree, Failure>
    ensures gives { (o v : Toks) (a b : Tree) → position_of here ≡ position o → operator.entry.source.now ≡ context.entry.source.now → seen_all operator.entry.rest.now ≡ v → Holds parser.old.symbols left a → Holds parser.old.symbols right b → (w : Toks) (s : Scope) → At parser.old w s → Gives Holds parser.old parser.new result (taken (binary context.entry.source.now o v a b) w s) }
    ensures later { (x : Subtree) → result ≡ Ok x → Later parser.old parser.new }
{
    let name = parser.intern(context, operator.word())?;
    let position = position_with(here, operator);
    Ok(tree_builder::binary(context.alloc, position, left, name, right)?)
}

// `a != b`
#[inline(never)]
fn different(
    context: Context<'_>,
    parser: &mut Parser<'_>,
    position: SourcePosition,
    left: Subtree,
    right: Subtree,
) -> Result<Subtree, Failure>
    ensures gives { (a b : Tree) → Holds parser.old.symbols left a → Holds parser.old.symbols right b → (w : Toks) (s : Scope) → At parser.old w s → Gives Holds parser.old parser.new result (taken (sent (position_of position) (sent (position_of position) a (codes "==") (one b)) (codes "!") no_more) w s) }
    ensures later { (x : Subtree) → result ≡ Ok x → Later parser.old parser.new }
{
    let arguments = Subtrees::one(context.alloc, right)?;
    let same = sent_to(context, parser, position, left, b"==", arguments)?;
    sent_alone(context, parser, position, same, b"!")
}

/// An operator before its operand, which is sent.
#[inline(never)]
pub fn sent_alone(
    context: Context<'_>,
    parser: &mut Parser<'_>,
    position: SourcePosition,
    receiver: Subtree,
    name: &[u8],
) -> Result<Subtree, Failure>
    ensures gives { (a : Tree) → Holds parser.old.symbols receiver a → (w : Toks) (s : Scope) → At parser.old w s → Gives Holds parser.old parser.new result (taken (sent (position_of position) a name.now no_more) w s) }
    ensures later { (x : Subtree) → result ≡ Ok x → Later parser.old parser.new }
{
    let arguments = Subtrees::new(context.alloc);
    sent_to(context, parser, position, receiver, name, arguments)
}

// An operator by its name.
fn sent_to(
    context: Context<'_>,
    parser: &mut Parser<'_>,
    position: SourcePosition,
    receiver: Subtree,
    name: &[u8],
    arguments: Subtrees,
) -> Result<Subtree, Failure>
    ensures gives { (a : Tree) (ts : Trees) → Holds parser.old.symbols receiver a → HoldsAll parser.old.symbols arguments ts → (w : Toks) (s : Scope) → At parser.old w s → Gives Holds parser.old parser.new result (taken (sent (position_of position) a name.now ts) w s) }
    ensures later { (x : Subtree) → result ≡ Ok x → Later parser.old parser.new }
{
    let name = parser.intern(context, name)?;
    Ok(tree_builder::sent(context.alloc, position, receiver, name, arguments)?)
}

//! The parts of a text with code.
ghost use Rattle.ruby_lexer.specs.Pieces.{seen_all, seen_parts};
ghost use Rattle.tree_builder.specs.Subtrees.{Holds, HoldsPieces};
ghost use Rattle.parse_state.specs.Gives.{Reads};
ghost use Rattle.parse_parts.specs.Parts.{code_in, text_from};

use bs_outside::Bytes;
use parse_state::{Context, Failure, Nested, Parser};
use ruby_lexer::{Part, Token};
use token_lookahead::DoBlockOwner;
use tree_builder::{PieceSubtrees, Subtree};

/// The parts of a text. The tokens of each code are read in the place of those that are left, which stand there again behind it.
pub fn text_parts<'a, N: Nested>(
    context: Context<'_>,
    nested: &N,
    parser: &mut Parser<'a>,
    parts: &'a [Part],
) -> Result<PieceSubtrees, Failure>
    requires { N.IsReady nested.now }
    ensures reads { Reads HoldsPieces parser.old parser.new result (text_from context.entry.source.now (N.readers nested.now context.entry.source.now) (seen_parts parts.entry.now)) }
{
    let mut pieces = PieceSubtrees::new(context.alloc);
    let mut left = parts;
    while let [part, tail @ ..] = left {
        match part {
            Part::Plain(bytes) => {
                pieces.push_plain(Bytes::new(context.alloc, bytes.as_slice())?)?;
            }
            Part::Code(tokens) => {
                pieces.push_code(code_part(context, nested, parser, tokens.as_slice())?)?;
            }
        }
        left = tail;
    }
    Ok(pieces)
}

// The statements that these tokens are.
fn code_part<'a, N: Nested>(
    context: Context<'_>,
    nested: &N,
    parser: &mut Parser<'a>,
    tokens: &'a [Token],
) -> Result<Subtree, Failure>
    requires { N.IsReady nested.now }
    ensures reads { Reads Holds parser.old parser.new result (code_in context.entry.source.now (N.readers nested.now context.entry.source.now) (seen_all tokens.entry.now)) }
{
    let rest = parser.rest;
    parser.rest = tokens;
    let code = nested.statements(context, parser, DoBlockOwner::Own)?;
    if parser.lookahead(context).is_empty() {
        parser.rest = rest;
        return Ok(code);
    }
    Err(Failure::Syntax)
}

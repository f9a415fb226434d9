//! What a parser sees: the tokens that are left, over their source.
ghost use Rattle.std.specs.Prelude.{◌≡◌, ◌-◌, length, take, drop, option_map};
ghost use Rattle.ruby_lexer.specs.Pieces.{seen_all, seen_kind};
ghost use Rattle.ruby_tree.specs.Rules as test;
ghost use Rattle.ruby_tree.specs.SourcePositions.{position_of};
ghost use Rattle.token_lookahead.specs.Lookaheads.{is_empty, goal_with};

mod contents;
mod do_owner;
mod kinds;
mod marks;
mod openings;

pub use contents::plain_text;
pub use do_owner::DoBlockOwner;
use ruby_lexer::{Token, TokenKind};
use ruby_tree::SourcePosition;

/// The tokens that are left, and the text that they are parts of.
#[derive(Clone, Copy, Drop)]
pub struct Lookahead<'a> {
    /// The whole text.
    pub source: &'a [u8],
    /// The tokens from the first one that is left on.
    pub rest: &'a [Token],
}

/// A kind of variable, by which it is set.
#[derive(Clone, Copy, Debug, PartialEq, Eq, Drop)]
pub enum Settable {
    Local,
    Instance,
    Global,
}

impl<'a> Lookahead<'a> {
    /// Whether no token is left.
    pub fn is_empty(self) -> bool
        ensures { result ≡ is_empty (seen_all self.entry.rest.now) }
    {
        match self.rest {
            [] => true,
            [_, ..] => false,
        }
    }

    /// The lookahead behind the first token.
    pub fn next(self) -> Lookahead<'a>
        ensures source { result.source.now ≡ self.entry.source.now }
        ensures rest { result.rest.now ≡ drop 1 self.entry.rest.now }
        ensures seen { seen_all result.rest.now ≡ test.next (seen_all self.entry.rest.now) }
    {
        Lookahead {
            source: self.source,
            rest: match self.rest {
                [] => &[],
                [_, rest @ ..] => rest,
            },
        }
    }

    /// What the first token is.
    pub fn front(self) -> Option<&'a TokenKind>
        ensures { test.front (seen_all self.entry.rest.now) ≡ option_map (λ k. seen_kind k.now) result }
    {
        match self.rest {
            [] => None,
            [token, ..] => Some(&token.kind),
        }
    }

    /// The first token as it is written.
    pub fn word(self) -> &'a [u8]
        ensures { result.now ≡ test.word self.entry.source.now (seen_all self.entry.rest.now) }
    {
        match self.rest {
            [] => &[],
            [token, ..] => part(self.source, token.from, token.to),
        }
    }

    /// Whether a blank stands before the first token.
    pub fn blank(self) -> bool
        ensures { result ≡ test.blank (seen_all self.entry.rest.now) }
    {
        match self.rest {
            [] => false,
            [token, ..] => token.blank,
        }
    }

    /// Whether the first token ends where the next one begins.
    pub fn touches_next(self) -> bool
        ensures { result ≡ test.touches_next (seen_all self.entry.rest.now) }
    {
        match self.rest {
            [] => false,
            [token, ..] => token.to == self.next().from(),
        }
    }

    /// The line of the first token, or 0.
    pub fn line_at(self) -> u64
        ensures { result ≡ test.line_at (seen_all self.entry.rest.now) }
    {
        match self.rest {
            [] => 0,
            [token, ..] => token.line,
        }
    }

    /// The place of the first token, or 0.
    pub fn place_at(self) -> u64
        ensures { result ≡ test.place_at (seen_all self.entry.rest.now) }
    {
        self.from() as u64
    }

    /// The same as an index.
    fn from(self) -> usize
        ensures { result ≡ test.place_at (seen_all self.entry.rest.now) }
    {
        match self.rest {
            [] => 0,
            [token, ..] => token.from,
        }
    }

    /// The position of a node that begins here.
    pub fn position(self) -> SourcePosition
        ensures { position_of result ≡ test.position (seen_all self.entry.rest.now) }
    {
        SourcePosition {
            first: self.line_at(),
            line: self.line_at(),
            place: self.place_at(),
        }
    }

    /// The position of a node that begins here, and whose name or operator stands there.
    pub fn position_with(self, operator: Lookahead<'_>) -> SourcePosition
        ensures { position_of result ≡ test.position_with (seen_all self.entry.rest.now) (seen_all operator.entry.rest.now) }
    {
        SourcePosition {
            first: self.line_at(),
            line: operator.line_at(),
            place: self.place_at(),
        }
    }

    /// The kind of the variable here, which could be set.
    pub fn goal(self) -> Option<Settable>
        ensures { option_map (goal_with (test.word self.entry.source.now (seen_all self.entry.rest.now))) result ≡ test.goal_at self.entry.source.now (seen_all self.entry.rest.now) }
    {
        match self.front() {
            Some(TokenKind::Name) => Some(Settable::Local),
            Some(TokenKind::Variable) => Some(Settable::Instance),
            Some(TokenKind::Global) => Some(Settable::Global),
            _ => None,
        }
    }
}

/// The bytes of the text from one place up to another, as many of them as there are.
fn part(text: &[u8], from: usize, to: usize) -> &[u8]
    ensures { result.now ≡ take (to - from) (drop from text.now) }
{
    let tail = text.get(from..).unwrap_or(&[]);
    let count = to.saturating_sub(from);
    tail.get(..count).unwrap_or(tail)
}

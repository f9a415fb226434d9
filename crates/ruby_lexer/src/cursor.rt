//! A place in a text.
ghost use Rattle.std.specs.Prelude.{◌≡◌, ◌≤◌, ◌+◌, ◌-◌, suc, [], ◌∷◌, length, take, drop, true, None};
ghost use Rattle.std.specs.Prelude.{codes};
ghost use Rattle.ruby_lexer.specs.Bytes.{from_first};
ghost use Rattle.ruby_lexer.specs.Forms.{newlines, place, is_fresh, line_of};

use std::alloc::Global;

/// How many newlines the bytes have.
pub fn newlines(bytes: &[u8]) -> usize
    ensures count { result ≡ newlines bytes.now }
    ensures fits { result ≤ length bytes.now }
{
    bytes.iter().filter(|byte| **byte == b'\n').count()
}

/// A place in a text, with its line.
#[derive(Drop)]
pub struct Cursor<'a> {
    /// The whole text.
    pub text: &'a [u8],
    /// What is left of it.
    pub rest: &'a [u8],
    /// The line of the place, counted from 1.
    pub line: u64,
    /// Whether it is known that no `]` is left.
    pub no_list_end: bool,
    /// Whether it is known that no line that begins with `=end` follows.
    pub no_comment_end: bool,
    pub alloc: Global,
    ghost lined: { line + newlines rest.now ≡ suc (newlines text.now) },
    ghost no_list: { no_list_end ≡ true → from_first (93 ∷ []) rest.now ≡ None },
    ghost no_comment: { no_comment_end ≡ true → from_first (10 ∷ codes "=end") rest.now ≡ None },
}

impl<'a> Cursor<'a> {
    /// The first place of the text.
    pub fn new(alloc: Global, text: &'a [u8]) -> Self
        ensures text { result.text.now ≡ text.now }
        ensures rest { result.rest.now ≡ text.now }
    {
        Cursor {
            text,
            rest: text,
            line: 1,
            no_list_end: false,
            no_comment_end: false,
            alloc,
        }
    }

    /// How many bytes stand before it.
    pub fn place(&self) -> usize
        ensures { result ≡ place self.now.text.now self.now.rest.now }
    {
        self.text.len().saturating_sub(self.rest.len())
    }

    /// Its line.
    pub fn line(&self) -> u64
        ensures { result ≡ line_of self.now.text.now self.now.rest.now }
    {
        self.line
    }

    /// Whether a line begins there.
    pub fn is_fresh(&self) -> bool
        ensures { result ≡ is_fresh self.now.text.now self.now.rest.now }
    {
        let place = self.place();
        place == 0 || self.text.get(place - 1).copied().unwrap_or(0) == b'\n'
    }

    /// Goes on by so many bytes.
    pub fn bump(&mut self, count: usize)
        requires { count ≤ length self.old.rest.now }
        ensures rest { self.new.rest.now ≡ drop count self.old.rest.now }
        ensures text { self.new.text.now ≡ self.old.text.now }
    {
        let line = self.line + newlines(&self.rest[..count]) as u64;
        *self = Cursor {
            text: self.text,
            rest: &self.rest[count..],
            line,
            no_list_end: self.no_list_end,
            no_comment_end: self.no_comment_end,
            alloc: self.alloc,
        };
    }
}

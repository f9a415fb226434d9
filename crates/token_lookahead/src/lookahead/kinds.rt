//! Tests of the first token's kind.
ghost use Rattle.std.specs.Prelude.{◌≡◌};
ghost use Rattle.ruby_lexer.specs.Pieces.{seen_all};
ghost use Rattle.ruby_tree.specs.Rules.{front, is_kind_mark, is_kind_keyword, is_kind_name, is_kind_newline, is_kind_integer, is_kind_operand, is_kind_constant, is_kind_label};
ghost use Rattle.token_lookahead.specs.Lookaheads.{is_kind_variable, is_kind_global};

use crate::lookahead::Lookahead;
use ruby_lexer::TokenKind;

impl Lookahead<'_> {
    /// Whether the first token is a mark.
    pub fn is_any_mark(self) -> bool
        ensures { result ≡ is_kind_mark (front (seen_all self.entry.rest.now)) }
    {
        matches!(self.front(), Some(TokenKind::Mark))
    }

    /// Whether the first token is a reserved word.
    pub fn is_any_word(self) -> bool
        ensures { result ≡ is_kind_keyword (front (seen_all self.entry.rest.now)) }
    {
        matches!(self.front(), Some(TokenKind::Keyword))
    }

    /// Whether the first token is a name.
    pub fn is_name(self) -> bool
        ensures { result ≡ is_kind_name (front (seen_all self.entry.rest.now)) }
    {
        matches!(self.front(), Some(TokenKind::Name))
    }

    /// Whether the first token is a newline or `;`.
    pub fn is_newline(self) -> bool
        ensures { result ≡ is_kind_newline (front (seen_all self.entry.rest.now)) }
    {
        matches!(self.front(), Some(TokenKind::Newline))
    }

    /// Whether the first token is a whole number.
    pub fn is_integer(self) -> bool
        ensures { result ≡ is_kind_integer (front (seen_all self.entry.rest.now)) }
    {
        matches!(self.front(), Some(TokenKind::Integer(_)))
    }

    /// Whether the first token is a constant.
    pub fn is_constant(self) -> bool
        ensures { result ≡ is_kind_constant (front (seen_all self.entry.rest.now)) }
    {
        matches!(self.front(), Some(TokenKind::Constant))
    }

    /// Whether the first token is a label.
    pub fn is_label(self) -> bool
        ensures { result ≡ is_kind_label (front (seen_all self.entry.rest.now)) }
    {
        matches!(self.front(), Some(TokenKind::Label(_)))
    }

    /// Whether the first token is a variable of an object.
    pub fn is_variable(self) -> bool
        ensures { result ≡ is_kind_variable (front (seen_all self.entry.rest.now)) }
    {
        matches!(self.front(), Some(TokenKind::Variable))
    }

    /// Whether the first token is a global variable.
    pub fn is_global(self) -> bool
        ensures { result ≡ is_kind_global (front (seen_all self.entry.rest.now)) }
    {
        matches!(self.front(), Some(TokenKind::Global))
    }

    /// Whether the first token is a literal, a label, a name, a constant or a variable.
    pub fn is_operand(self) -> bool
        ensures { result ≡ is_kind_operand (front (seen_all self.entry.rest.now)) }
    {
        !matches!(
            self.front(),
            None | Some(TokenKind::Keyword | TokenKind::Mark | TokenKind::Newline)
        )
    }
}

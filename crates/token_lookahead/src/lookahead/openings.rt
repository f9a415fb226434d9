//! What begins at the first token.
ghost use Rattle.std.specs.Prelude.{◌≡◌};
ghost use Rattle.ruby_lexer.specs.Pieces.{seen_all};
ghost use Rattle.ruby_tree.specs.Rules as test;
ghost use Rattle.token_lookahead.specs.Lookaheads.{do_owner_of};

use crate::lookahead::{DoBlockOwner, Lookahead};
use ruby_lexer::TokenKind;

impl Lookahead<'_> {
    /// Whether an argument of a command begins here.
    pub fn begins_argument(self) -> bool
        ensures { result ≡ test.begins_argument self.entry.source.now (seen_all self.entry.rest.now) }
    {
        self.is_operand()
            || self.is_starting()
            || self.is_starting_word()
            || (self.is_tight() && !self.next().blank())
    }

    /// Whether what stands here makes a command of the name before it.
    pub fn begins_arguments(self) -> bool
        ensures { result ≡ test.begins_arguments self.entry.source.now (seen_all self.entry.rest.now) }
    {
        self.blank() && self.begins_argument()
    }

    /// Whether an argument begins here.
    pub fn begins_arg(self) -> bool
        ensures { result ≡ test.begins_arg self.entry.source.now (seen_all self.entry.rest.now) }
    {
        (self.is_operand() && !self.is_label()) || self.is_operand_mark() || self.is_operand_word()
    }

    /// Whether a value of the `return`, `break` or `next` before it begins here.
    pub fn begins_value(self) -> bool
        ensures { result ≡ test.begins_value self.entry.source.now (seen_all self.entry.rest.now) }
    {
        self.begins_arg() && !self.is_modifier()
    }

    /// Whether a statement begins here.
    pub fn begins_statement(self) -> bool
        ensures { result ≡ test.begins_statement self.entry.source.now (seen_all self.entry.rest.now) }
    {
        self.begins_arg() || self.is_statement_word()
    }

    /// Whether an operand goes on here.
    pub fn goes_on(self) -> bool
        ensures { result ≡ test.goes_on self.entry.source.now (seen_all self.entry.rest.now) }
    {
        self.is_mark(".")
            || self.is_mark("&.")
            || self.is_mark("::")
            || (self.is_mark("[") && !self.blank())
    }

    /// Whether brackets stand here with no blank before them.
    pub fn opens(self) -> bool
        ensures { result ≡ test.opens self.entry.source.now (seen_all self.entry.rest.now) }
    {
        self.is_mark("(") && !self.blank()
    }

    /// Whether a block begins here that a call takes.
    pub fn opens_block(self, do_owner: DoBlockOwner) -> bool
        ensures { result ≡ test.opens_block self.entry.source.now (do_owner_of do_owner) (seen_all self.entry.rest.now) }
    {
        self.is_mark("{") || (do_owner.call_takes() && self.is_word("do"))
    }

    /// Whether a block begins here that a command takes.
    pub fn opens_do(self, do_owner: DoBlockOwner) -> bool
        ensures { result ≡ test.opens_do self.entry.source.now (do_owner_of do_owner) (seen_all self.entry.rest.now) }
    {
        do_owner.command_takes() && self.is_word("do")
    }

    /// Whether `-` stands directly before a whole number that no `**` follows.
    pub fn is_negative(self) -> bool
        ensures { result ≡ test.is_negative self.entry.source.now (seen_all self.entry.rest.now) }
    {
        self.is_mark("-")
            && self.next().is_integer()
            && self.touches_next()
            && !self.next().next().is_mark("**")
    }

    /// Whether something is assigned here.
    pub fn assigns(self) -> bool
        ensures { result ≡ test.assigns self.entry.source.now (seen_all self.entry.rest.now) }
    {
        self.is_mark("=")
            || self.is_mark("||=")
            || self.is_mark("&&=")
            || self.is_sending_assignment()
    }

    /// Whether the parameters of a method begin here.
    pub fn begins_params(self) -> bool
        ensures { result ≡ test.begins_params self.entry.source.now (seen_all self.entry.rest.now) }
    {
        self.is_newline()
            || self.is_name()
            || self.is_mark("(")
            || self.is_mark("*")
            || self.is_mark("&")
    }

    /// Whether a variable or a constant stands here that is set by what stands behind it.
    pub fn sets(self) -> bool
        ensures { result ≡ test.sets self.entry.source.now (seen_all self.entry.rest.now) }
    {
        (self.is_goal() && self.next().assigns())
            || (self.is_constant() && self.next().is_mark("="))
    }

    /// Whether several targets begin here.
    pub fn begins_targets(self) -> bool
        ensures { result ≡ test.begins_targets self.entry.source.now (seen_all self.entry.rest.now) }
    {
        self.is_goal() && self.next().is_mark(",")
    }

    /// Whether a variable stands here that could be set.
    pub fn is_goal(self) -> bool
        ensures { result ≡ test.is_goal (test.goal_at self.entry.source.now (seen_all self.entry.rest.now)) }
    {
        matches!(
            self.front(),
            Some(TokenKind::Name | TokenKind::Variable | TokenKind::Global)
        )
    }
}

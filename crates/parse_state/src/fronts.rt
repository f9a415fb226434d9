//! What the first tokens alone decide.
ghost use Rattle.std.specs.Prelude.{◌≡◌, ◌++◌, ◌&&◌, ◌||◌, codes, if◌then◌else◌};
ghost use Rattle.ruby_lexer.specs.Bytes.{Bytes};
ghost use Rattle.ruby_lexer.specs.Pieces.{Toks, seen_all};
ghost use Rattle.ruby_tree.specs.Rules.{Scope, next, word, touches_next};
ghost use Rattle.ruby_tree.specs.Rules as test;
ghost use Rattle.tree_builder.specs.Subtrees.{IsNamed};
ghost use Rattle.reference_parser.specs.Answers.{found};
ghost use Rattle.reference_parser.specs.Fronts.{is_newline, skip_newlines, then_at, loop_start_at, brackets_at, method_name_at, on_self_at, is_dot, begins_element, begins_pair, begins_item, more_elements, more_pairs, more_items, more_passed, calling_words, leaving_words, begins_command, begins_operator};
ghost use Rattle.parse_state.specs.Standing.{At, Later};
ghost use Rattle.parse_state.specs.Gives.{Finds, HoldsNothing, IsSame};

use crate::{Context, Failure, Parser};
use ruby_tree::Name;
use token_lookahead::Lookahead;

impl Parser<'_> {
    /// Goes on over newlines.
    pub fn skip_newlines(&mut self, context: Context<'_>)
        ensures at { (w : Toks) (s : Scope) → At self.old w s → At self.new (skip_newlines context.entry.source.now w) s }
        ensures later { Later self.old self.new }
    {
        while self.lookahead(context).is_newline() {
            self.bump();
        }
    }

    /// Goes on over a newline, `then`, or both.
    pub fn skip_then(&mut self, context: Context<'_>) -> Result<(), Failure>
        ensures finds { (w : Toks) (s : Scope) → At self.old w s → Finds HoldsNothing self.old self.new s result (then_at context.entry.source.now w) }
    {
        if self.lookahead(context).is_newline() {
            self.bump();
            if self.is_word(context, "then") {
                self.bump();
            }
            return Ok(());
        }
        self.expect_word(context, "then")
    }

    /// Goes on over a newline or `do`.
    pub fn skip_loop_start(&mut self, context: Context<'_>) -> Result<(), Failure>
        ensures finds { (w : Toks) (s : Scope) → At self.old w s → Finds HoldsNothing self.old self.new s result (loop_start_at context.entry.source.now w) }
    {
        if is_loop_start(self.lookahead(context)) {
            self.bump();
            return Ok(());
        }
        Err(Failure::Syntax)
    }

    /// Goes on over `self.`, and whether it stands here.
    pub fn skip_self(&mut self, context: Context<'_>) -> Result<bool, Failure>
        ensures finds { (w : Toks) (s : Scope) → At self.old w s → Finds IsSame self.old self.new s result (on_self_at context.entry.source.now w) }
    {
        if self.is_word(context, "self") {
            self.bump();
            self.expect_mark(context, ".")?;
            return Ok(true);
        }
        Ok(false)
    }

    /// Goes on over the name of a method. One that is defined may have `=` behind it.
    pub fn method_name(&mut self, context: Context<'_>, defines: bool) -> Result<Name, Failure>
        ensures finds { (w : Toks) (s : Scope) → At self.old w s → Finds IsNamed self.old self.new s result (method_name_at context.entry.source.now defines w) }
    {
        let lookahead = self.lookahead(context);
        if lookahead.is_name() {
            return self.plain_name(context, defines);
        }
        if lookahead.is_constant() {
            return self.one_word(context);
        }
        if lookahead.is_method_mark() {
            return self.one_word(context);
        }
        if is_brackets(lookahead) {
            return self.bracket_name(context);
        }
        Err(Failure::Syntax)
    }

    // The name that is the first token.
    fn one_word(&mut self, context: Context<'_>) -> Result<Name, Failure>
        ensures finds { (w : Toks) (s : Scope) → At self.old w s → Finds IsNamed self.old self.new s result (found (word context.entry.source.now w) (next w)) }
    {
        let name = self.word_name(context)?;
        self.bump();
        Ok(name)
    }

    // A name of small letters, and `=` directly behind it.
    fn plain_name(&mut self, context: Context<'_>, defines: bool) -> Result<Name, Failure>
        ensures finds { (w : Toks) (s : Scope) → At self.old w s → Finds IsNamed self.old self.new s result (if defines && (test.is_mark context.entry.source.now (codes "=") (next w) && touches_next w) then found (word context.entry.source.now w ++ codes "=") (next (next w)) else found (word context.entry.source.now w) (next w)) }
    {
        if !defines {
            return self.one_word(context);
        }
        if is_set(self.lookahead(context)) {
            return self.setter_name(context);
        }
        self.one_word(context)
    }

    // A name of small letters and the `=` behind it.
    fn setter_name(&mut self, context: Context<'_>) -> Result<Name, Failure>
        ensures finds { (w : Toks) (s : Scope) → At self.old w s → Finds IsNamed self.old self.new s result (found (word context.entry.source.now w ++ codes "=") (next (next w))) }
    {
        let name = self.setter(context, self.lookahead(context).word())?;
        self.bump();
        self.bump();
        Ok(name)
    }

    // `[]` or `[]=`
    fn bracket_name(&mut self, context: Context<'_>) -> Result<Name, Failure>
        ensures finds { (w : Toks) (s : Scope) → At self.old w s → Finds IsNamed self.old self.new s result (brackets_at context.entry.source.now w) }
    {
        self.bump();
        if is_set(self.lookahead(context)) {
            self.bump();
            self.bump();
            return self.intern(context, b"[]=");
        }
        self.bump();
        self.intern(context, b"[]")
    }

    /// Whether a call goes on with a method's name.
    pub fn is_dot(&self, context: Context<'_>) -> bool
        ensures { (w : Toks) (s : Scope) → At self.now w s → result ≡ is_dot context.entry.source.now w }
    {
        let lookahead = self.lookahead(context);
        lookahead.is_mark(".") || lookahead.is_mark("&.")
    }

    /// Whether a comma stands here, and an element behind it.
    pub fn more_elements(&self, context: Context<'_>) -> bool
        ensures { (w : Toks) (s : Scope) → At self.now w s → result ≡ more_elements context.entry.source.now w }
    {
        let lookahead = self.lookahead(context);
        lookahead.is_mark(",") && begins_element(lookahead.next())
    }

    /// Whether a comma stands here, and a pair behind it.
    pub fn more_pairs(&self, context: Context<'_>) -> bool
        ensures { (w : Toks) (s : Scope) → At self.now w s → result ≡ more_pairs context.entry.source.now w }
    {
        let lookahead = self.lookahead(context);
        lookahead.is_mark(",") && begins_pair(lookahead.next())
    }

    /// Whether a comma stands here, and an item of a call behind it.
    pub fn more_items(&self, context: Context<'_>) -> bool
        ensures { (w : Toks) (s : Scope) → At self.now w s → result ≡ more_items context.entry.source.now w }
    {
        let lookahead = self.lookahead(context);
        lookahead.is_mark(",") && begins_item(lookahead.next())
    }

    /// Whether a comma stands here, and behind it what is passed behind `&`.
    pub fn more_passed(&self, context: Context<'_>) -> bool
        ensures { (w : Toks) (s : Scope) → At self.now w s → result ≡ more_passed context.entry.source.now w }
    {
        let lookahead = self.lookahead(context);
        lookahead.is_mark(",") && lookahead.next().is_mark("&")
    }

    /// Whether the name here is a command.
    pub fn is_command(&self, context: Context<'_>) -> bool
        ensures { (w : Toks) (s : Scope) → At self.now w s → result ≡ test.is_command context.entry.source.now s (word context.entry.source.now w) (next w) }
    {
        let lookahead = self.lookahead(context);
        !self.locals.contains(lookahead.word()) && lookahead.next().begins_arguments()
    }

    /// Whether a command begins here, but for one behind a dot.
    pub fn begins_command(&self, context: Context<'_>) -> bool
        ensures { (w : Toks) (s : Scope) → At self.now w s → result ≡ begins_command context.entry.source.now s w }
    {
        let lookahead = self.lookahead(context);
        (lookahead.is_name() && self.is_command(context))
            || (is_calling(lookahead) && lookahead.next().begins_arguments())
            || is_leaving(lookahead)
    }

    /// Whether an operator stands before an operand here.
    pub fn begins_operator(&self, context: Context<'_>) -> bool
        ensures { (w : Toks) (s : Scope) → At self.now w s → result ≡ begins_operator context.entry.source.now w }
    {
        let lookahead = self.lookahead(context);
        lookahead.is_mark("!")
            || lookahead.is_mark("~")
            || lookahead.is_mark("+")
            || (lookahead.is_mark("-") && !lookahead.is_negative())
    }
}

// `yield` or `super`
fn is_calling(lookahead: Lookahead<'_>) -> bool
    ensures { result ≡ test.word_in lookahead.entry.source.now (calling_words lookahead.entry.source.now) (seen_all lookahead.entry.rest.now) }
{
    lookahead.is_word("yield") || lookahead.is_word("super")
}

// `return`, `break` or `next`
fn is_leaving(lookahead: Lookahead<'_>) -> bool
    ensures { result ≡ test.word_in lookahead.entry.source.now (leaving_words lookahead.entry.source.now) (seen_all lookahead.entry.rest.now) }
{
    lookahead.is_word("return") || lookahead.is_word("break") || lookahead.is_word("next")
}

// an element, which may be spread
fn begins_element(lookahead: Lookahead<'_>) -> bool
    ensures { result ≡ begins_element lookahead.entry.source.now (seen_all lookahead.entry.rest.now) }
{
    lookahead.begins_arg() || lookahead.is_mark("*")
}

fn begins_pair(lookahead: Lookahead<'_>) -> bool
    ensures { result ≡ begins_pair lookahead.entry.source.now (seen_all lookahead.entry.rest.now) }
{
    lookahead.begins_arg() || lookahead.is_label()
}

// an item of a call
fn begins_item(lookahead: Lookahead<'_>) -> bool
    ensures { result ≡ begins_item lookahead.entry.source.now (seen_all lookahead.entry.rest.now) }
{
    begins_element(lookahead) || lookahead.is_label() || lookahead.is_mark("&")
}

// a newline or `do`
fn is_loop_start(lookahead: Lookahead<'_>) -> bool
    ensures { result ≡ (is_newline (seen_all lookahead.entry.rest.now) || test.is_word lookahead.entry.source.now (codes "do") (seen_all lookahead.entry.rest.now)) }
{
    lookahead.is_newline() || lookahead.is_word("do")
}

// `[` and `]` directly behind it
fn is_brackets(lookahead: Lookahead<'_>) -> bool
    ensures { result ≡ (test.is_mark lookahead.entry.source.now (codes "[") (seen_all lookahead.entry.rest.now) && (test.is_mark lookahead.entry.source.now (codes "]") (next (seen_all lookahead.entry.rest.now)) && touches_next (seen_all lookahead.entry.rest.now))) }
{
    lookahead.is_mark("[") && lookahead.next().is_mark("]") && lookahead.touches_next()
}

// whether `=` stands directly behind the first token
fn is_set(lookahead: Lookahead<'_>) -> bool
    ensures { result ≡ (test.is_mark lookahead.entry.source.now (codes "=") (next (seen_all lookahead.entry.rest.now)) && touches_next (seen_all lookahead.entry.rest.now)) }
{
    lookahead.next().is_mark("=") && lookahead.touches_next()
}

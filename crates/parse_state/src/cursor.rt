//! Steps of a parser by a token, by a name and by a local.
ghost use Rattle.std.specs.Prelude.{◌≡◌, ◌≤◌, ◌-◌, ◌++◌, length, drop, codes, true, Some};
ghost use Rattle.ruby_lexer.specs.Bytes.{Bytes};
ghost use Rattle.ruby_lexer.specs.Pieces.{Toks, seen_all};
ghost use Rattle.ruby_tree.specs.SourcePositions.{position_of};
ghost use Rattle.ruby_tree.specs.Names.{Extends};
ghost use Rattle.ruby_tree.specs.Rules.{Scope, next, word, declare, fresh, in_clause, outside_clause, behind};
ghost use Rattle.ruby_tree.specs.Rules as test;
ghost use Rattle.tree_builder.specs.Subtrees.{IsNamed};
ghost use Rattle.reference_parser.specs.Answers.{taken};
ghost use Rattle.reference_parser.specs.ReadItems.{closed};
ghost use Rattle.parse_state.specs.Standing.{At, Later};
ghost use Rattle.parse_state.specs.Gives.{Gives, Reads, Expects, HoldsNothing};

use crate::{Context, Failure, Parser};
use ruby_tree::{Name, SourcePosition};
use token_lookahead::{Locals, Lookahead};

/// What stood around a part that has locals of its own.
#[derive(Drop)]
pub struct EnclosingBody {
    /// The locals there.
    pub locals: Locals,
    /// Whether it stands directly in a rescue clause.
    pub in_clause: bool,
}

impl<'a> Parser<'a> {
    /// What the parser sees.
    pub fn lookahead<'b>(&self, context: Context<'b>) -> Lookahead<'b>
    where
        'a: 'b,
        ensures source { result.source.now ≡ context.entry.source.now }
        ensures rest { result.rest.now ≡ self.now.rest.now }
    {
        Lookahead {
            source: context.source,
            rest: self.rest,
        }
    }

    /// Whether the mark stands here.
    pub fn is_mark(&self, context: Context<'_>, mark: &str) -> bool
        ensures { (w : Toks) (s : Scope) → At self.now w s → result ≡ test.is_mark context.entry.source.now mark.now w }
    {
        self.lookahead(context).is_mark(mark)
    }

    /// Whether the word stands here.
    pub fn is_word(&self, context: Context<'_>, word: &str) -> bool
        ensures { (w : Toks) (s : Scope) → At self.now w s → result ≡ test.is_word context.entry.source.now word.now w }
    {
        self.lookahead(context).is_word(word)
    }

    /// Goes on by a token, where there is one.
    pub fn bump(&mut self)
        ensures at { (w : Toks) (s : Scope) → At self.old w s → At self.new (next w) s }
        ensures later { Later self.old self.new }
        ensures rest { length self.new.rest.now ≡ length self.old.rest.now - 1 }
    {
        self.rest = match self.rest {
            [] => &[],
            [_, rest @ ..] => rest,
        };
    }

    /// Goes on by the mark, which has to stand here.
    pub fn expect_mark(&mut self, context: Context<'_>, mark: &str) -> Result<(), Failure>
        ensures expects { (w : Toks) (s : Scope) → At self.old w s → Expects self.old self.new (next w) s result (test.is_mark context.entry.source.now mark.now w) }
    {
        if self.is_mark(context, mark) {
            self.bump();
            return Ok(());
        }
        Err(Failure::Syntax)
    }

    /// Goes on by the word, which has to stand here.
    pub fn expect_word(&mut self, context: Context<'_>, word: &str) -> Result<(), Failure>
        ensures expects { (w : Toks) (s : Scope) → At self.old w s → Expects self.old self.new (next w) s result (test.is_word context.entry.source.now word.now w) }
    {
        if self.is_word(context, word) {
            self.bump();
            return Ok(());
        }
        Err(Failure::Syntax)
    }

    /// Goes on by a newline, which has to stand here.
    pub fn expect_newline(&mut self, context: Context<'_>) -> Result<(), Failure>
        ensures expects { (w : Toks) (s : Scope) → At self.old w s → Expects self.old self.new (next w) s result (test.is_kind_newline (test.front w)) }
    {
        if self.lookahead(context).is_newline() {
            self.bump();
            return Ok(());
        }
        Err(Failure::Syntax)
    }

    /// Goes on by a comma or none, and the bracket that closes a list.
    pub fn expect_closing(&mut self, context: Context<'_>, bracket: &str) -> Result<(), Failure>
        ensures reads { Reads HoldsNothing self.old self.new result (closed context.entry.source.now bracket.now tt) }
    {
        if self.is_mark(context, ",") {
            self.bump();
            return self.expect_mark(context, bracket);
        }
        self.expect_mark(context, bracket)
    }

    /// The name of a text.
    pub fn intern(&mut self, context: Context<'_>, text: &[u8]) -> Result<Name, Failure>
        ensures gives { (w : Toks) (s : Scope) → At self.old w s → Gives IsNamed self.old self.new result (taken text.now w s) }
    {
        Ok(self.symbols.intern(context.alloc, text)?)
    }

    /// The name that the first token is.
    pub fn word_name(&mut self, context: Context<'_>) -> Result<Name, Failure>
        ensures gives { (w : Toks) (s : Scope) → At self.old w s → Gives IsNamed self.old self.new result (taken (word context.entry.source.now w) w s) }
    {
        let text = self.lookahead(context).word();
        self.intern(context, text)
    }

    /// The name that sets what the name stands for: with `=` behind it.
    pub fn setter(&mut self, context: Context<'_>, name: &[u8]) -> Result<Name, Failure>
        ensures gives { (w : Toks) (s : Scope) → At self.old w s → Gives IsNamed self.old self.new result (taken (name.now ++ codes "=") w s) }
    {
        let mut text = Vec::from_slice(context.alloc, name)?;
        text.push(b'=')?;
        self.intern(context, &text)
    }

    /// The first token becomes a local.
    pub fn declare(&mut self, context: Context<'_>) -> Result<(), Failure>
        ensures gives { (w : Toks) (s : Scope) → At self.old w s → Gives HoldsNothing self.old self.new result (taken tt w (declare (word context.entry.source.now w) s)) }
    {
        let text = self.lookahead(context).word();
        Ok(self.locals.declare(context.alloc, text)?)
    }

    /// Goes into a rescue clause.
    pub fn enter_clause(&mut self)
        ensures at { (w : Toks) (s : Scope) → At self.old w s → At self.new w (in_clause s) }
        ensures later { Later self.old self.new }
        ensures rest { self.new.rest.now ≡ self.old.rest.now }
    {
        self.in_clause = true;
    }

    /// Goes where no rescue clause is directly around.
    pub fn leave_clause(&mut self)
        ensures at { (w : Toks) (s : Scope) → At self.old w s → At self.new w (outside_clause s) }
        ensures later { Later self.old self.new }
        ensures rest { self.new.rest.now ≡ self.old.rest.now }
    {
        self.in_clause = false;
    }

    /// Goes back to where it stood before a clause; the locals stay.
    pub fn go_behind(&mut self, in_clause: bool)
        ensures at { (w : Toks) (s z : Scope) → s.clause ≡ in_clause → At self.old w z → At self.new w (behind s z) }
        ensures later { Later self.old self.new }
        ensures rest { self.new.rest.now ≡ self.old.rest.now }
    {
        self.in_clause = in_clause;
    }

    /// Ends a block that began where there were so many locals.
    pub fn close_block(&mut self, count: usize, in_clause: bool)
        ensures at { (p : Parser) (w r : Toks) (s z : Scope) → At p w s → length p.locals ≡ count → p.in_clause ≡ in_clause → Later p self.old → At self.old r z → At self.new r s }
        ensures later { (p : Parser) → length p.locals ≡ count → Later p self.old → Later p self.new }
    {
        if count <= self.locals.len() {
            self.locals.close(count);
        }
        self.in_clause = in_clause;
    }

    /// Goes into a body that has locals of its own, and none at first.
    pub fn enter_body(&mut self, context: Context<'_>) -> EnclosingBody
        ensures at { (w : Toks) (s : Scope) → At self.old w s → At self.new w fresh }
        ensures same { self.new.symbols ≡ self.old.symbols }
        ensures rest { self.new.rest.now ≡ self.old.rest.now }
        ensures locals { result.locals ≡ self.old.locals }
        ensures clause { result.in_clause ≡ self.old.in_clause }
    {
        let around = EnclosingBody {
            locals: std::mem::replace(&mut self.locals, Locals::new(context.alloc)),
            in_clause: self.in_clause,
        };
        self.in_clause = false;
        around
    }

    /// Goes back to what stood around a body.
    pub fn leave_body(&mut self, around: EnclosingBody)
        ensures at { (p : Parser) (w r : Toks) (s z : Scope) → At p w s → around.locals ≡ p.locals → around.in_clause ≡ p.in_clause → At self.old r z → At self.new r s }
        ensures later { (p : Parser) → around.locals ≡ p.locals → Extends p.symbols self.old.symbols → length self.old.rest.now ≤ length p.rest.now → Later p self.new }
    {
        self.locals = around.locals;
        self.in_clause = around.in_clause;
    }
}

/// The position of a node that begins at a position, and whose name or operator stands at a lookahead.
pub fn position_with(here: SourcePosition, operator: Lookahead<'_>) -> SourcePosition
    ensures { (o : Toks) → position_of here ≡ test.position o → position_of result ≡ test.position_with o (seen_all operator.entry.rest.now) }
{
    SourcePosition {
        first: here.first,
        line: operator.line_at(),
        place: here.place,
    }
}

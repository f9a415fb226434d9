//! Tests of the first token's text.
ghost use Rattle.std.specs.Prelude.{◌≡◌, map};
ghost use Rattle.ruby_lexer.specs.Bytes.{is_in};
ghost use Rattle.ruby_lexer.specs.Pieces.{seen_all};
ghost use Rattle.ruby_tree.specs.Rules as test;

use crate::lookahead::Lookahead;

/// The marks that begin an operand or an operator before one.
const OPERAND_MARKS: [&[u8]; 8] = [b"(", b"[", b"{", b"::", b"!", b"~", b"+", b"-"];

/// The words that begin an operand.
const OPERAND_WORDS: [&[u8]; 19] = [
    b"nil",
    b"true",
    b"false",
    b"self",
    b"__FILE__",
    b"__LINE__",
    b"__dir__",
    b"yield",
    b"super",
    b"if",
    b"unless",
    b"while",
    b"until",
    b"begin",
    b"case",
    b"def",
    b"class",
    b"module",
    b"retry",
];

/// The words that begin a statement which is no argument.
const STATEMENT_WORDS: [&[u8]; 4] = [b"not", b"return", b"break", b"next"];

/// The marks that begin an argument of a command.
const STARTING_MARKS: [&[u8]; 3] = [b"(", b"[", b"!"];

/// The words that do so.
const STARTING_WORDS: [&[u8]; 9] = [
    b"nil",
    b"true",
    b"false",
    b"self",
    b"yield",
    b"super",
    b"__FILE__",
    b"__LINE__",
    b"__dir__",
];

/// The marks that do so where no blank stands behind them either.
const TIGHT_MARKS: [&[u8]; 4] = [b"-", b"*", b"&", b"::"];

/// The words that make a modifier of what follows.
const MODIFIERS: [&[u8]; 5] = [b"if", b"unless", b"while", b"until", b"rescue"];

/// The marks that are names of methods.
const METHOD_MARKS: [&[u8]; 22] = [
    b"+", b"-", b"*", b"/", b"%", b"**", b"&", b"|", b"^", b"<<", b">>", b"<", b"<=", b">", b">=",
    b"<=>", b"==", b"===", b"!", b"~", b"-@", b"+@",
];

/// An operator and `=`, where the operator is sent.
const SENDING_ASSIGNMENTS: [&[u8]; 15] = [
    b"**=", b"*=", b"/=", b"%=", b"+=", b"-=", b"<<=", b">>=", b"&=", b"|=", b"^=", b"<==", b">==",
    b"<=>=", b"====",
];

/// The operators of products.
const PRODUCT_MARKS: [&[u8]; 3] = [b"*", b"/", b"%"];

/// The operators of sums.
const SUM_MARKS: [&[u8]; 2] = [b"+", b"-"];

/// The operators of shifts.
const SHIFT_MARKS: [&[u8]; 2] = [b"<<", b">>"];

/// The operators of intersections.
const INTERSECTION_MARKS: [&[u8]; 1] = [b"&"];

/// The operators of unions.
const UNION_MARKS: [&[u8]; 2] = [b"|", b"^"];

/// The operators that say which is less.
const ORDER_MARKS: [&[u8]; 4] = [b"<", b"<=", b">", b">="];

/// The operators that say whether both are equal.
const EQUALITY_MARKS: [&[u8]; 3] = [b"<=>", b"==", b"==="];

impl Lookahead<'_> {
    /// Whether the first token is this mark.
    pub fn is_mark(self, mark: &str) -> bool
        ensures { result ≡ test.is_mark self.entry.source.now mark.now (seen_all self.entry.rest.now) }
    {
        self.is_any_mark() && mark.as_bytes() == self.word()
    }

    /// Whether the first token is this reserved word.
    pub fn is_word(self, word: &str) -> bool
        ensures { result ≡ test.is_word self.entry.source.now word.now (seen_all self.entry.rest.now) }
    {
        self.is_any_word() && word.as_bytes() == self.word()
    }

    /// Whether the first token is one of these marks.
    fn mark_in(self, marks: &[&[u8]]) -> bool
        ensures { result ≡ test.mark_in self.entry.source.now (map (λ m. m.now) marks.now) (seen_all self.entry.rest.now) }
    {
        self.is_any_mark() && is_in(self.word(), marks)
    }

    /// Whether the first token is one of these reserved words.
    fn word_in(self, words: &[&[u8]]) -> bool
        ensures { result ≡ test.word_in self.entry.source.now (map (λ m. m.now) words.now) (seen_all self.entry.rest.now) }
    {
        self.is_any_word() && is_in(self.word(), words)
    }

    /// Whether the mark here begins an operand or an operator before one.
    pub fn is_operand_mark(self) -> bool
        ensures { result ≡ test.mark_in self.entry.source.now test.operand_marks (seen_all self.entry.rest.now) }
    {
        self.mark_in(&OPERAND_MARKS)
    }

    /// Whether the word here begins an operand.
    pub fn is_operand_word(self) -> bool
        ensures { result ≡ test.word_in self.entry.source.now test.operand_words (seen_all self.entry.rest.now) }
    {
        self.word_in(&OPERAND_WORDS)
    }

    /// Whether the word here begins a statement which is no argument.
    pub fn is_statement_word(self) -> bool
        ensures { result ≡ test.word_in self.entry.source.now test.statement_words (seen_all self.entry.rest.now) }
    {
        self.word_in(&STATEMENT_WORDS)
    }

    /// Whether the mark here begins an argument of a command.
    pub fn is_starting(self) -> bool
        ensures { result ≡ test.mark_in self.entry.source.now test.starting_marks (seen_all self.entry.rest.now) }
    {
        self.mark_in(&STARTING_MARKS)
    }

    /// Whether the word here does so.
    pub fn is_starting_word(self) -> bool
        ensures { result ≡ test.word_in self.entry.source.now test.starting_words (seen_all self.entry.rest.now) }
    {
        self.word_in(&STARTING_WORDS)
    }

    /// Whether the mark here does so where no blank stands behind it.
    pub fn is_tight(self) -> bool
        ensures { result ≡ test.mark_in self.entry.source.now test.tight_marks (seen_all self.entry.rest.now) }
    {
        self.mark_in(&TIGHT_MARKS)
    }

    /// Whether the word here makes a modifier of what follows.
    pub fn is_modifier(self) -> bool
        ensures { result ≡ test.word_in self.entry.source.now test.modifiers (seen_all self.entry.rest.now) }
    {
        self.word_in(&MODIFIERS)
    }

    /// Whether the mark here is a name of a method.
    pub fn is_method_mark(self) -> bool
        ensures { result ≡ test.mark_in self.entry.source.now test.method_marks (seen_all self.entry.rest.now) }
    {
        self.mark_in(&METHOD_MARKS)
    }

    /// Whether an operator and `=` stand here, where the operator is sent.
    pub fn is_sending_assignment(self) -> bool
        ensures { result ≡ test.mark_in self.entry.source.now test.sending_assignments (seen_all self.entry.rest.now) }
    {
        self.mark_in(&SENDING_ASSIGNMENTS)
    }

    /// Whether an operator of a product stands here.
    pub fn is_product(self) -> bool
        ensures { result ≡ test.mark_in self.entry.source.now test.product_marks (seen_all self.entry.rest.now) }
    {
        self.mark_in(&PRODUCT_MARKS)
    }

    /// Whether an operator of a sum stands here.
    pub fn is_sum(self) -> bool
        ensures { result ≡ test.mark_in self.entry.source.now test.sum_marks (seen_all self.entry.rest.now) }
    {
        self.mark_in(&SUM_MARKS)
    }

    /// Whether an operator of a shift stands here.
    pub fn is_shift(self) -> bool
        ensures { result ≡ test.mark_in self.entry.source.now test.shift_marks (seen_all self.entry.rest.now) }
    {
        self.mark_in(&SHIFT_MARKS)
    }

    /// Whether an operator of an intersection stands here.
    pub fn is_intersection(self) -> bool
        ensures { result ≡ test.mark_in self.entry.source.now test.intersection_marks (seen_all self.entry.rest.now) }
    {
        self.mark_in(&INTERSECTION_MARKS)
    }

    /// Whether an operator of a union stands here.
    pub fn is_union(self) -> bool
        ensures { result ≡ test.mark_in self.entry.source.now test.union_marks (seen_all self.entry.rest.now) }
    {
        self.mark_in(&UNION_MARKS)
    }

    /// Whether an operator stands here that says which is less.
    pub fn is_order(self) -> bool
        ensures { result ≡ test.mark_in self.entry.source.now test.order_marks (seen_all self.entry.rest.now) }
    {
        self.mark_in(&ORDER_MARKS)
    }

    /// Whether an operator stands here that says whether both are equal.
    pub fn is_equality(self) -> bool
        ensures { result ≡ test.mark_in self.entry.source.now test.equality_marks (seen_all self.entry.rest.now) }
    {
        self.mark_in(&EQUALITY_MARKS)
    }
}

/// Whether the word is one of the table.
fn is_in(word: &[u8], table: &[&[u8]]) -> bool
    ensures { result ≡ is_in word.now (map (λ m. m.now) table.now) }
{
    let mut left = table;
    while let [entry, tail @ ..] = left {
        if word == *entry {
            return true;
        }
        left = tail;
    }
    false
}

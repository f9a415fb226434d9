//! Operators and marks.
ghost use Rattle.std.specs.Prelude.{◌≡◌, ◌≤◌, ◌<◌, length, take, drop, map, Option, MatchOption, option_map};
ghost use Rattle.ruby_lexer.specs.Marks.{first_length, mark_length, operator_length, is_closing_mark};

use crate::bytes::{is_in, starts};

/// The operators and marks that another one may begin with or that begin with another one, the longer ones first.
const MARKS: [&[u8]; 51] = [
    b"<=>=", b"====", b"...=", b"**=", b"<<=", b">>=", b"<==", b">==", b"<=>", b"===", b"!==",
    b"&&=", b"||=", b"..=", b"...", b"**", b"*=", b"/=", b"%=", b"+=", b"-=", b"<<", b">>", b"&=",
    b"|=", b"^=", b"<=", b">=", b"==", b"!=", b"&&", b"||", b"..", b"=>", b"&.", b"::", b"*", b"/",
    b"%", b"+", b"-", b"&", b"|", b"^", b"<", b">", b"!", b".", b"?", b":", b"=",
];

/// The operators that are names of methods, the longer ones first.
const METHOD_OPERATORS: [&[u8]; 24] = [
    b"<=>", b"===", b"[]=", b"**", b"<<", b">>", b"<=", b">=", b"==", b"-@", b"+@", b"[]", b"+",
    b"-", b"*", b"/", b"%", b"&", b"|", b"^", b"<", b">", b"!", b"~",
];

/// The marks behind which a newline is a token.
const CLOSING_MARKS: [&[u8]; 9] = [b")", b"]", b"}", b"?", b":", b"=>", b"~", b"-@", b"+@"];

/// How long the first entry of the table is that stands at the front.
fn first_length(table: &[&[u8]], text: &[u8]) -> Option<usize>
    ensures length { result ≡ first_length text.now (map (λ m. m.now) table.now) }
    ensures fits { MatchOption result (Unit {0}) (λ n. n ≤ length text.now) }
{
    let mut left = table;
    while let [entry, tail @ ..] = left {
        if starts(entry, text) {
            return Some(entry.len());
        }
        left = tail;
    }
    None
}

/// How long the longest mark at the front is.
#[tactic(auto, unfolding(crate::specs::Marks::mark_length))]
pub fn mark_length(text: &[u8]) -> Option<usize>
    ensures length { result ≡ mark_length text.now }
    ensures fits { MatchOption result (Unit {0}) (λ n. n ≤ length text.now) }
{
    first_length(&MARKS, text)
}

/// How long the longest operator at the front is that is a name of a method.
#[tactic(auto, unfolding(crate::specs::Marks::operator_length))]
pub fn operator_length(text: &[u8]) -> Option<usize>
    ensures length { result ≡ operator_length text.now }
    ensures fits { MatchOption result (Unit {0}) (λ n. n ≤ length text.now) }
{
    first_length(&METHOD_OPERATORS, text)
}

/// Whether a newline behind the mark is a token.
#[tactic(auto, unfolding(crate::specs::Marks::is_closing_mark))]
pub fn is_closing_mark(mark: &[u8]) -> bool
    ensures { result ≡ is_closing_mark mark.now }
{
    is_in(mark, &CLOSING_MARKS)
}

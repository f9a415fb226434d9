//! A small file.
use bs_outside::{Items, Text};

/// What a sum adds up: a number from 0 to 2^63 - 1, or a name that an earlier line assigned.
#[derive(Drop, Debug)]
pub enum Operand {
    Number(i64),
    Name(Text),
}

/// What stands between two operands.
#[derive(Drop, Debug, Clone, Copy, PartialEq, Eq)]
pub enum Operator {
    Plus,
    Minus,
}

/// An operator and the operand behind it.
#[derive(Drop, Debug)]
pub struct Term {
    pub operator: Operator,
    pub operand: Operand,
}

/// An operand, and what is added to it or taken from it, from the left.
#[derive(Drop, Debug)]
pub struct Sum {
    pub first: Operand,
    pub rest: Items<Term>,
}

/// A line.
#[derive(Drop, Debug)]
pub enum Line {
    /// Nothing.
    Empty,
    /// `NAME = SUM`
    Assign(Text, Sum),
    /// `puts SUM`
    PutsSum(Sum),
    /// `puts "TEXT"`
    PutsText(Text),
}

/// The lines of a small file, the first of which is line 1.
#[derive(Drop, Debug)]
pub struct SmallFile {
    pub lines: Items<Line>,
}

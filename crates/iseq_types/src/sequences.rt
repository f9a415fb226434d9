//! Sequences, their catch rows, and the units that hold them.
use crate::Instr;
use bs_outside::{Items, Text, Texts};

/// What a sequence is the body of.
#[derive(Clone, Copy, PartialEq, Eq, Debug)]
pub enum SeqKind {
    File,
    Method,
    Class,
    Block,
    Rescue,
    Ensure,
}

/// What a catch row takes.
#[derive(Clone, Copy, PartialEq, Eq, Debug)]
pub enum CatchKind {
    Rescue,
    Ensure,
    Break,
    Next,
}

/// A row of a catch table. It holds the places from `from` on and below `to`. The value is put on
/// the depth `sp` at the place `cont`. `seq` is the number of the sequence that runs for a rescue
/// or ensure row, and 0 for the others.
#[derive(Clone, Copy, Debug)]
pub struct CatchRow {
    pub kind: CatchKind,
    pub from: u64,
    pub to: u64,
    pub cont: u64,
    pub sp: u64,
    pub seq: u64,
}

/// An instruction and the line of the text that it comes from, counted from 1.
#[derive(Drop)]
pub struct Line {
    pub line: u64,
    pub instr: Instr,
}

/// The body of a file, method, class, block, rescue part or ensure part. `entries` are the places
/// at which it begins with no optional parameter given, with one, and so on up to all; there are
/// none, or one, where no parameter is optional.
#[derive(Drop)]
pub struct Sequence {
    pub name: Text,
    pub first_line: u64,
    pub locals: Texts,
    pub required: u64,
    pub entries: Items<u64>,
    pub rest: bool,
    pub block: bool,
    pub rows: Items<CatchRow>,
    pub code: Items<Line>,
}

/// What the index of a unit says of a sequence: its kind, the number of the sequence in which it
/// stands (0 for the file), and how many locals it has.
#[derive(Clone, Copy, Debug)]
pub struct IndexRow {
    pub kind: SeqKind,
    pub parent: usize,
    pub locals: u64,
}

/// A compiled file: its path, and a row and a body for each of its sequences, in their order.
#[derive(Drop)]
pub struct Unit {
    pub path: Text,
    pub rows: Items<IndexRow>,
    pub bodies: Items<Sequence>,
}

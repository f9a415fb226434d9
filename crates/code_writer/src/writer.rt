//! The code of a sequence while it is written.
ghost use Rattle.std.specs.Prelude.{◌≡◌, ◌+◌, ◌-◌, length, map, reverse, IfOk, OnOk};
ghost use Rattle.code_meaning.specs.Code.{at_line};
ghost use Rattle.code_writer.specs.Writing.{nothing, wrote, plain, on, back, branch_of, row_opened, row_begun, led_back, step_of, writing_of, placed, placed_from, row_among, code_of, table_of};

use bs_outside::{Items, NoMemory};
use iseq_types::{CatchKind, CatchRow, Instr, Line};
use std::alloc::{AllocError, Global};

/// When an instruction jumps.
#[derive(Clone, Copy, PartialEq, Eq, Debug, Drop)]
pub enum Branch {
    Always,
    /// Where the top of the stack is neither nil nor false.
    If,
    /// Where it is nil or false.
    Unless,
    Nil,
}

impl Branch {
    /// The instruction that jumps to the place.
    fn instr(self, target: u64) -> Instr
        ensures { result ≡ branch_of self target }
    {
        match self {
            Branch::Always => Instr::Jump(target),
            Branch::If => Instr::BranchIf(target),
            Branch::Unless => Instr::BranchUnless(target),
            Branch::Nil => Instr::BranchNil(target),
        }
    }
}

/// An instruction that is written, whose own place is not known yet.
#[derive(Drop)]
enum Written {
    Plain(Line),
    /// On its line, a jump over so many instructions that follow it.
    On(u64, Branch, u64),
    /// On its line, a jump back over so many that stand before it.
    Back(u64, Branch, u64),
}

/// A catch row, whose places are counted from the end of the code: by the instructions that stand
/// behind them.
#[derive(Clone, Copy, Drop)]
struct HeldRow {
    kind: CatchKind,
    from: u64,
    to: u64,
    /// How many instructions behind its end the value goes on.
    far: u64,
    sp: u64,
    seq: u64,
}

/// The code of a sequence that was written, with its catch rows, the inner ones first.
#[derive(Drop)]
pub struct Code {
    pub lines: Items<Line>,
    pub rows: Items<CatchRow>,
}

/// The code of a sequence, written from its last instruction to its first.
///
/// A place in the code is told by how many instructions stand behind it: what
/// [`len`](CodeWriter::len) answers there.
#[derive(Drop)]
pub struct CodeWriter {
    written: Vec<Written>,
    rows: Vec<HeldRow>,
}

impl CodeWriter {
    /// Nothing is written.
    pub fn new(alloc: Global) -> CodeWriter
        ensures { writing_of result ≡ nothing }
    {
        CodeWriter {
            written: Vec::new(alloc),
            rows: Vec::new(alloc),
        }
    }

    /// How many instructions are written.
    pub fn len(&self) -> u64
        ensures { result ≡ length (writing_of self.now).steps }
    {
        self.written.len() as u64
    }

    /// Writes an instruction that does not jump.
    pub fn write(&mut self, line: u64, instr: Instr) -> Result<(), NoMemory>
        ensures { OnOk result (writing_of self.new ≡ wrote (plain (at_line line instr)) (writing_of self.old)) }
    {
        self.written.push(Written::Plain(Line { line, instr }))?;
        Ok(())
    }

    /// Writes a jump to a place that stands behind it.
    pub fn jump_on(&mut self, line: u64, branch: Branch, to: u64) -> Result<(), NoMemory>
        ensures { OnOk result (writing_of self.new ≡ wrote (on line (branch_of branch) (length (writing_of self.old).steps - to)) (writing_of self.old)) }
    {
        let over = self.len().saturating_sub(to);
        self.written.push(Written::On(line, branch, over))?;
        Ok(())
    }

    /// Writes a jump back to a place that [`lead_back`](CodeWriter::lead_back) tells, and answers
    /// its number for that.
    pub fn jump_back(&mut self, line: u64, branch: Branch) -> Result<usize, NoMemory>
        ensures wrote { OnOk result (writing_of self.new ≡ wrote (back line (branch_of branch) 0) (writing_of self.old)) }
        ensures number { IfOk result (λ number. number ≡ length (writing_of self.old).steps) }
    {
        let number = self.written.len();
        self.written.push(Written::Back(line, branch, 0))?;
        Ok(number)
    }

    /// The jump back of this number leads to here.
    #[tactic(auto, using(crate::proofs::Leading::led, crate::proofs::Leading::led_plain, crate::proofs::Leading::led_on, crate::proofs::Leading::led_none))]
    pub fn lead_back(&mut self, number: usize)
        ensures { writing_of self.new ≡ led_back number (writing_of self.old) }
    {
        let len = self.written.len();
        match self.written.get(number) {
            Some(Written::Back(line, branch, _)) => {
                let over = (len - number - 1) as u64;
                self.written[number] = Written::Back(*line, *branch, over);
            }
            Some(Written::Plain(_)) => {}
            Some(Written::On(_, _, _)) => {}
            None => {}
        }
    }

    /// A row ends here, and holds what is written from now on till
    /// [`begin_row`](CodeWriter::begin_row); the answer is its number for that. The value goes on
    /// at the depth, at a place behind the row's end.
    pub fn end_row(
        &mut self,
        kind: CatchKind,
        go_on: u64,
        seq: u64,
        depth: u64,
    ) -> Result<usize, NoMemory>
        ensures opened { OnOk result (writing_of self.new ≡ row_opened kind (length (writing_of self.old).steps - go_on) seq depth (writing_of self.old)) }
        ensures number { IfOk result (λ number. number ≡ length (writing_of self.old).rows) }
    {
        let here = self.len();
        let number = self.rows.len();
        self.rows.push(HeldRow {
            kind,
            from: here,
            to: here,
            far: here.saturating_sub(go_on),
            sp: depth,
            seq,
        })?;
        Ok(number)
    }

    /// The row of this number begins here.
    pub fn begin_row(&mut self, number: usize)
        ensures { writing_of self.new ≡ row_begun number (writing_of self.old) }
    {
        let here = self.len();
        if number < self.rows.len() {
            self.rows[number].from = here;
        }
    }

    /// The code that is written, from its first instruction on.
    pub fn finish(self, alloc: Global) -> Result<Code, NoMemory>
        ensures lines { IfOk result (λ code. code.lines ≡ code_of (writing_of self)) }
        ensures rows { IfOk result (λ code. code.rows ≡ table_of (writing_of self)) }
    {
        let CodeWriter { written, rows } = self;
        let len = written.len() as u64;
        Ok(Code {
            lines: placed(alloc, written)?,
            rows: among(alloc, len, rows)?,
        })
    }
}

/// The instructions in the order of the code, each jump with its place.
fn placed(alloc: Global, mut written: Vec<Written>) -> Result<Items<Line>, NoMemory>
    ensures { IfOk result (λ lines. lines ≡ placed_from 0 (reverse (map step_of written.items))) }
{
    let mut lines = Vec::with_capacity(alloc, written.len())?;
    while let Some(step) = written.pop() {
        let place = lines.len() as u64;
        lines.push(line_of(step, place)?)?;
    }
    Ok(Items::from_vec(lines))
}

/// The instruction at its place. More instructions than 64 bits can count want more memory than
/// there is.
fn line_of(step: Written, place: u64) -> Result<Line, NoMemory>
    ensures { IfOk result (λ line. line ≡ placed place (step_of step)) }
{
    match step {
        Written::Plain(line) => Ok(line),
        Written::On(line, branch, over) => Ok(Line {
            line,
            instr: branch.instr(sum(sum(place, 1)?, over)?),
        }),
        Written::Back(line, branch, over) => Ok(Line {
            line,
            instr: branch.instr(place.saturating_sub(over)),
        }),
    }
}

/// The rows in the order of the table, among so many instructions.
fn among(alloc: Global, len: u64, mut rows: Vec<HeldRow>) -> Result<Items<CatchRow>, NoMemory>
    ensures { IfOk result (λ table. table ≡ map (row_among len) (reverse rows.items)) }
{
    let mut table = Vec::with_capacity(alloc, rows.len())?;
    while let Some(row) = rows.pop() {
        let to = len.saturating_sub(row.to);
        table.push(CatchRow {
            kind: row.kind,
            from: len.saturating_sub(row.from),
            to,
            cont: sum(to, row.far)?,
            sp: row.sp,
            seq: row.seq,
        })?;
    }
    Ok(Items::from_vec(table))
}

/// The sum, where there is room for it.
fn sum(a: u64, b: u64) -> Result<u64, NoMemory>
    ensures { IfOk result (λ sum. sum ≡ a + b) }
{
    match a.checked_add(b) {
        Some(sum) => Ok(sum),
        None => Err(AllocError),
    }
}

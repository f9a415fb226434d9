//! The small form of a syntax tree: what can be run by now.
#![tactic(auto)]

ghost use Rattle.std.specs.Prelude.{◌≡◌, IfOk};
ghost use Rattle.ruby_tree.specs.Names.{Texts};
ghost use Rattle.ruby_tree.specs.Read.{tree_of};
ghost use Rattle.ruby_tree.specs.Tree.{SourcePosition, at};
ghost use Rattle.ruby_tree.specs.Views.{read_all, read_control};
ghost use Rattle.small_form.specs.SmallForm.{begins_in_line_1, small_of};

mod files;
mod operands;
mod sites;
mod statements;
mod sums;
mod tree;

use bs_outside::NoMemory;
use files::lines_of;
use ruby_tree::{Control, Kind, Node, Program, SymbolTable};
use std::alloc::Global;
pub use tree::{Line, Operand, Operator, SmallFile, Sum, Term};

/// The most lines of a small file.
pub const LINE_LIMIT: u64 = 1_000;

/// The most operands of a sum.
pub const OPERAND_LIMIT: usize = 100;

/// The small file that a program is, or nothing where it is none: statements whose first token, if there is one, is in line 1, each with all its parts in a line of its own, of at most 1,000, of the forms
/// `NAME = SUM`, `puts SUM` and `puts "TEXT"`. A sum has one to a hundred operands with `+` or `-` between two; an operand is a number below 2^63 or a name that an earlier line assigned.
/// A text is printable ASCII without `"`, `\` and `#`.
///
/// # Errors
///
/// Where there is not memory enough.
#[tactic(auto, using(crate::proofs::Nodes::smalls, std::proofs::lemmas::Grind::common_steps))]
pub fn small_file(alloc: Global, program: &Program) -> Result<Option<SmallFile>, NoMemory>
    ensures { IfOk result (λ file. file ≡ small_of (tree_of program.now.symbols program.now.root)) }
{
    match &program.root.kind {
        Kind::Control(control) => {
            control_file(alloc, &program.symbols, program.root.line, control)
        }
        Kind::Literal(_) => Ok(None),
        Kind::Variable(_) => Ok(None),
        Kind::Collection(_) => Ok(None),
        Kind::Assignment(_) => Ok(None),
        Kind::Call(_) => Ok(None),
        Kind::Exit(_) => Ok(None),
        Kind::Handler(_) => Ok(None),
        Kind::Definition(_) => Ok(None),
    }
}

/// The small file that statements are, where their first token is in this line.
fn control_file(
    alloc: Global,
    symbols: &SymbolTable,
    line: u64,
    control: &Control<Node>,
) -> Result<Option<SmallFile>, NoMemory>
    ensures { (o : SourcePosition) → o.line ≡ line → IfOk result (λ file. file ≡ small_of (at o (read_control symbols.now control.now))) }
{
    match control {
        Control::Statements(statements) => {
            if !begins_in_line_1(line, statements) {
                return Ok(None);
            }
            match lines_of(alloc, symbols, statements)? {
                Some(lines) => Ok(Some(SmallFile { lines })),
                None => Ok(None),
            }
        }
        Control::And(_, _) => Ok(None),
        Control::Or(_, _) => Ok(None),
        Control::Not(_) => Ok(None),
        Control::If(_, _, _) => Ok(None),
        Control::While(_, _, _, _) => Ok(None),
        Control::Case(_, _, _) => Ok(None),
        Control::CaseTests(_, _) => Ok(None),
    }
}

/// Whether the first token of the statements is in line 1, or there is none.
#[tactic(auto, using(crate::proofs::Only::begun, std::proofs::lemmas::Grind::common_steps))]
fn begins_in_line_1(line: u64, statements: &[Node]) -> bool
    ensures { (texts : Texts) → result ≡ begins_in_line_1 line (read_all texts statements.now) }
{
    match statements {
        [] => line <= 1,
        [_, ..] => line == 1,
    }
}

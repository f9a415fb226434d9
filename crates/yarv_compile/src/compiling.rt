//! Compiles a program.
ghost use Rattle.std.specs.Prelude.{◌≡◌, length, IfOk};
ghost use Rattle.ruby_tree.specs.Read.{tree_of};
ghost use Rattle.iseq_dump.specs.Dump.{CanBeDumped, HasSoundBodies};
ghost use Rattle.compile_table.specs.Sequences.{unit_of};

use crate::places::SourceFile;
use crate::{files, units};
use bs_outside::{NoMemory, Text};
use iseq_types::Unit;
use ruby_tree::Program;
use sequence_numbers::SequenceNumbers;
use std::alloc::Global;

/// The unit of a program in the file of this path.
///
/// # Errors
///
/// Where there is not memory enough.
pub fn compile(alloc: Global, path: &Text, program: &Program) -> Result<Unit, NoMemory>
    ensures unit { IfOk result (λ unit. unit ≡ unit_of path.now (tree_of program.now.symbols program.now.root)) }
    ensures sound { IfOk result (λ unit. ∥ HasSoundBodies unit ∥₁) }
    ensures dumpable { IfOk result CanBeDumped }
    ensures bodies { IfOk result (λ unit. length unit.bodies ≡ length unit.rows) }
{
    let numbers = SequenceNumbers::of_tree(alloc, &program.root)?;
    let file = SourceFile {
        alloc,
        symbols: &program.symbols,
        path,
        numbers: &numbers,
    };
    let all = files::sequences(&file, &program.root)?;
    let unit = units::unit(alloc, path, all.own, all.done)?;
    Ok(unit)
}

//! The machine, which runs the compiled unit of a small file straight on.
ghost use Rattle.std.specs.Prelude.{◌≡◌, ◌⊎◌, ◌≤◌, ℕ, List, Some, IfOk, OnOk, OnErr, IsErrOf, length};
ghost use Rattle.bs_outside.specs.Told.{added, AddsPrefix, Rose};
ghost use Rattle.cache_meaning.specs.SmallUnit.{unit_of};
ghost use Rattle.bootsnap_top.specs.Answer.{answer_of_file};
ghost use Rattle.bootsnap_top.specs.Endings.{IsOfProgram};
ghost use Rattle.bootsnap_top.specs.Machine.{run_code, run_bodies, first_state, end_answer, EndsWith};

mod calls;
mod steps;
mod values;

use crate::Ending;
use crate::errors::say_out_of_range;
use bs_outside::{Gathered, Sink, SinkFault, Text};
use iseq_types::{Line, Sequence, Unit};
use std::alloc::Global;
use steps::{End, Step, run_instr};
use values::Machine;

/// Runs the unit of the file at the path: the code of its first sequence. The output is sent before the error text is written. What the
/// machine cannot run ends with `NotYet`, whatever the unit is.
#[tactic(auto, using(crate::proofs::SmallUnits::unit_answer))]
pub fn run_unit<O: Sink>(
    alloc: Global,
    out: &mut O,
    err: &mut O,
    path: &Text,
    unit: &Unit,
) -> Result<Ending, SinkFault>
    ensures output { (text : List ℕ) → unit_of path.now text ≡ Some unit.now → OnOk result (O.taken out.new ≡ added (O.taken out.old) (answer_of_file path.now (Some text)).output) }
    ensures errors { (text : List ℕ) → unit_of path.now text ≡ Some unit.now → OnOk result (O.taken err.new ≡ added (O.taken err.old) (answer_of_file path.now (Some text)).errors) }
    ensures ending { (text : List ℕ) → unit_of path.now text ≡ Some unit.now → IfOk result (λ ending. ending ≡ (answer_of_file path.now (Some text)).ending) }
    ensures only { IfOk result IsOfProgram }
    ensures output_prefix { (text : List ℕ) → unit_of path.now text ≡ Some unit.now → OnErr result (AddsPrefix (O.taken out.old) (O.taken out.new) (answer_of_file path.now (Some text)).output) }
    ensures errors_prefix { (text : List ℕ) → unit_of path.now text ≡ Some unit.now → OnErr result (AddsPrefix (O.taken err.old) (O.taken err.new) (answer_of_file path.now (Some text)).errors) }
    ensures out_counted { O.faults out.old ≤ O.faults out.new }
    ensures err_counted { O.faults err.old ≤ O.faults err.new }
    ensures failed { IsErrOf result SinkFault.Failed → Rose (O.faults out.old) (O.faults out.new) ⊎ Rose (O.faults err.old) (O.faults err.new) }
{
    run_bodies(alloc, out, err, path, unit.bodies.as_slice())
}

/// Runs the code of the first body.
#[tactic(auto, using(bs_outside::proofs::Owing::owing))]
fn run_bodies<O: Sink>(
    alloc: Global,
    out: &mut O,
    err: &mut O,
    path: &Text,
    bodies: &[Sequence],
) -> Result<Ending, SinkFault>
    ensures output { OnOk result (O.taken out.new ≡ added (O.taken out.old) (run_bodies path.now bodies.now).output) }
    ensures errors { OnOk result (O.taken err.new ≡ added (O.taken err.old) (run_bodies path.now bodies.now).errors) }
    ensures ending { IfOk result (λ ending. ending ≡ (run_bodies path.now bodies.now).ending) }
    ensures only { IfOk result IsOfProgram }
    ensures output_prefix { OnErr result (AddsPrefix (O.taken out.old) (O.taken out.new) (run_bodies path.now bodies.now).output) }
    ensures errors_prefix { OnErr result (AddsPrefix (O.taken err.old) (O.taken err.new) (run_bodies path.now bodies.now).errors) }
    ensures out_counted { O.faults out.old ≤ O.faults out.new }
    ensures err_counted { O.faults err.old ≤ O.faults err.new }
    ensures failed { IsErrOf result SinkFault.Failed → Rose (O.faults out.old) (O.faults out.new) ⊎ Rose (O.faults err.old) (O.faults err.new) }
{
    match bodies {
        [] => Ok(Ending::NotYet),
        [file, ..] => {
            let end = run_code(alloc, out, file.code.as_slice(), file.locals.len())?;
            say_end(alloc, err, path, end)
        }
    }
}

/// Writes the error text of a run that ended so, and answers its ending.
#[tactic(auto, using(bs_outside::proofs::Owing::owing))]
fn say_end<O: Sink>(alloc: Global, err: &mut O, path: &Text, end: End) -> Result<Ending, SinkFault>
    ensures errors { OnOk result (O.taken err.new ≡ added (O.taken err.old) (end_answer path.now end).errors) }
    ensures ending { IfOk result (λ ending. ending ≡ (end_answer path.now end).ending) }
    ensures only { IfOk result IsOfProgram }
    ensures prefix { OnErr result (AddsPrefix (O.taken err.old) (O.taken err.new) (end_answer path.now end).errors) }
    ensures counted { O.faults err.old ≤ O.faults err.new }
    ensures failed { IsErrOf result SinkFault.Failed → Rose (O.faults err.old) (O.faults err.new) }
{
    match end {
        End::Left => Ok(Ending::Exit(0)),
        End::OutOfRange(number) => {
            say_out_of_range(alloc, err, path, number)?;
            Ok(Ending::Exit(1))
        }
        End::NotYet => Ok(Ending::NotYet),
    }
}

/// Writes what the code writes, from its first instruction on with so many locals, and answers how it ends.
fn run_code<O: Sink>(
    alloc: Global,
    out: &mut O,
    code: &[Line],
    locals: usize,
) -> Result<End, SinkFault>
    ensures output { (path : List ℕ) → OnOk result (O.taken out.new ≡ added (O.taken out.old) (run_code path code.now (first_state locals)).output) }
    ensures ends { (path : List ℕ) → IfOk result (λ end. EndsWith path end (run_code path code.now (first_state locals))) }
    ensures output_prefix { (path : List ℕ) → OnErr result (AddsPrefix (O.taken out.old) (O.taken out.new) (run_code path code.now (first_state locals)).output) }
    ensures counted { O.faults out.old ≤ O.faults out.new }
    ensures failed { IsErrOf result SinkFault.Failed → Rose (O.faults out.old) (O.faults out.new) }
{
    let mut machine = Machine::new(alloc, locals)?;
    let mut held = Gathered::new(alloc);
    let mut rest = code;
    while let Some((line, left)) = rest.split_first() {
        let piece = match run_instr(alloc, &mut machine, line)? {
            Step::On(piece) => piece,
            Step::Ends(end) => {
                held.send(alloc, out)?;
                return Ok(end);
            }
        };
        held.put(alloc, out, piece.as_slice())?;
        rest = left;
    }
    held.send(alloc, out)?;
    Ok(End::NotYet)
}

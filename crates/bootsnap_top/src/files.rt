//! Runs the file of a tree.
ghost use Rattle.std.specs.Prelude.{◌≡◌, ◌≢◌, ◌⊎◌, ◌≤◌, ◌∷◌, [], false, IfOk, OnOk, OnErr, IfErr, IfSome, IsErrOf};
ghost use Rattle.bs_outside.specs.Told.{added, AddsPrefix, Rose};
ghost use Rattle.bs_outside.specs.SourceTree.{SourceTree, bytes_at};
ghost use Rattle.cache_meaning.specs.Entry.{file_at};
ghost use Rattle.cache_meaning.specs.Fits.{IsTrusted};
ghost use Rattle.cache_meaning.specs.Visits.{LeavesWhole};
ghost use Rattle.compile_cache.specs.Fetching.{got_of, reads_of, IsTrustedFor};
ghost use Rattle.bootsnap_top.specs.Answer.{answer_of_file};
ghost use Rattle.bootsnap_top.specs.CachedRun.{IsCachedRun, IsPartOfVisit, IsPartOfRun, notes_with, is_noted};
ghost use Rattle.bootsnap_top.specs.Endings.{IfWhole, IsOfRun, IsOfProgram, IsCutOff};

use crate::errors::{say_missing, say_syntax};
use crate::machine::run_unit;
use crate::notes::note_event;
use crate::{Desk, Ending};
use bs_outside::{Shelf, Sink, SinkFault, Steps, Text, Tree, TreeFault};
use compile_cache::{CacheUse, FetchResult, Mode, fetch_unit};
use std::alloc::Global;
use std::sync::ledger::Ledger;

/// Runs the file at the path: its unit is fetched as the mode says, the event is noted where that is asked for, and the unit is run. Of a text that
/// has no tree the line of its syntax error is written to the error text, behind the note of its event.
pub fn run_file<T: Tree, S: Shelf, O: Sink, L: Ledger>(
    alloc: Global,
    desk: &mut Desk<T, S>,
    out: &mut O,
    err: &mut O,
    note: &mut O,
    path: &Text,
    mode: &Mode,
    instrument: bool,
    steps: &mut Steps<L>,
) -> Ending
    ensures output { IfSome (T.contents desk.old.tree) (λ m. IsTrustedFor mode.now.cache S.tells m (S.history desk.old.shelf)
        → IfWhole result (O.taken out.new ≡ added (O.taken out.old) (answer_of_file path.now (bytes_at m path.now)).output)) }
    ensures errors { IfSome (T.contents desk.old.tree) (λ m. IsTrustedFor mode.now.cache S.tells m (S.history desk.old.shelf)
        → IfWhole result (O.taken err.new ≡ added (O.taken err.old) (answer_of_file path.now (bytes_at m path.now)).errors)) }
    ensures ending { IfSome (T.contents desk.old.tree) (λ m. IsTrustedFor mode.now.cache S.tells m (S.history desk.old.shelf)
        → IfWhole result (result ≡ (answer_of_file path.now (bytes_at m path.now)).ending)) }
    ensures output_prefix { IfSome (T.contents desk.old.tree) (λ m. IsTrustedFor mode.now.cache S.tells m (S.history desk.old.shelf)
        → AddsPrefix (O.taken out.old) (O.taken out.new) (answer_of_file path.now (bytes_at m path.now)).output) }
    ensures errors_prefix { IfSome (T.contents desk.old.tree) (λ m. IsTrustedFor mode.now.cache S.tells m (S.history desk.old.shelf)
        → AddsPrefix (O.taken err.old) (O.taken err.new) (answer_of_file path.now (bytes_at m path.now)).errors) }
    ensures ran { mode.now.cache ≡ CacheUse.On → IfSome (T.contents desk.old.tree) (λ m. IsTrusted S.tells m (S.history desk.old.shelf)
        → IfWhole result (IsCachedRun (file_at m path.now) (notes_with instrument) (S.history desk.old.shelf) (S.history desk.new.shelf)
        (S.faults desk.old.shelf) (S.faults desk.new.shelf) (T.reads desk.old.tree) (T.reads desk.new.tree) (O.taken note.old) (O.taken note.new))) }
    ensures part { mode.now.cache ≡ CacheUse.On → IfSome (T.contents desk.old.tree) (λ m. IsTrusted S.tells m (S.history desk.old.shelf)
        → IsPartOfRun (file_at m path.now) (notes_with instrument) (S.history desk.old.shelf) (S.history desk.new.shelf)
        (S.faults desk.old.shelf) (S.faults desk.new.shelf) (T.reads desk.old.tree) (T.reads desk.new.tree) (O.taken note.old) (O.taken note.new)
        ((O.taken out.new ≡ O.taken out.old) × (O.taken err.new ≡ O.taken err.old))) }
    ensures off { mode.now.cache ≡ CacheUse.Off → desk.new.shelf ≡ desk.old.shelf }
    ensures off_reads { mode.now.cache ≡ CacheUse.Off → IfSome (T.contents desk.old.tree) (λ m. IfWhole result (T.reads desk.new.tree ≡ added (T.reads desk.old.tree) (reads_of m path.now))) }
    ensures silent { is_noted mode.now.cache instrument ≡ false → O.taken note.new ≡ O.taken note.old }
    ensures whole { IfSome (T.contents desk.old.tree) (λ m. IsTrusted S.tells m (S.history desk.old.shelf) → LeavesWhole m (S.history desk.old.shelf) (S.history desk.new.shelf)) }
    ensures tree_fault { result ≡ Ending.TreeFault → Rose (T.faults desk.old.tree) (T.faults desk.new.tree) }
    ensures sink_fault { result ≡ Ending.SinkFault → Rose (O.faults out.old) (O.faults out.new) ⊎ (Rose (O.faults err.old) (O.faults err.new) ⊎ Rose (O.faults note.old) (O.faults note.new)) }
    ensures only { IsOfRun result }
    ensures contents { T.contents desk.new.tree ≡ T.contents desk.old.tree }
    ensures stats { IfWhole result (T.stats desk.new.tree ≡ added (T.stats desk.old.tree) (path.now ∷ [])) }
    ensures stats_part { AddsPrefix (T.stats desk.old.tree) (T.stats desk.new.tree) (path.now ∷ []) }
    ensures reads_part { AddsPrefix (T.reads desk.old.tree) (T.reads desk.new.tree) (path.now ∷ []) }
    ensures listings { T.listings desk.new.tree ≡ T.listings desk.old.tree }
{
    match fetch_noted(
        alloc,
        &mut desk.tree,
        &mut desk.shelf,
        note,
        path,
        mode,
        instrument,
        steps,
    ) {
        Ok(got) => run_got(alloc, out, err, path, &got),
        Err(ending) => ending,
    }
}

/// Fetches the file at the path, and then notes its event where that is asked for. What cut the call off is the ending.
fn fetch_noted<T: Tree, S: Shelf, O: Sink, L: Ledger>(
    alloc: Global,
    tree: &mut T,
    shelf: &mut S,
    note: &mut O,
    path: &Text,
    mode: &Mode,
    instrument: bool,
    steps: &mut Steps<L>,
) -> Result<FetchResult, Ending>
    ensures got { IfOk result (λ got. IfSome (T.contents tree.old) (λ m. IsTrustedFor mode.now.cache S.tells m (S.history shelf.old) → got ≡ got_of m path.now)) }
    ensures ran { mode.now.cache ≡ CacheUse.On → OnOk result (IfSome (T.contents tree.old) (λ m. IsTrusted S.tells m (S.history shelf.old)
        → IsCachedRun (file_at m path.now) (notes_with instrument) (S.history shelf.old) (S.history shelf.new)
        (S.faults shelf.old) (S.faults shelf.new) (T.reads tree.old) (T.reads tree.new) (O.taken note.old) (O.taken note.new))) }
    ensures part { mode.now.cache ≡ CacheUse.On → OnErr result (IfSome (T.contents tree.old) (λ m. IsTrusted S.tells m (S.history shelf.old)
        → IsPartOfVisit (file_at m path.now) (notes_with instrument) (S.history shelf.old) (S.history shelf.new)
        (S.faults shelf.old) (S.faults shelf.new) (T.reads tree.old) (T.reads tree.new) (O.taken note.old) (O.taken note.new))) }
    ensures off { mode.now.cache ≡ CacheUse.Off → shelf.new ≡ shelf.old }
    ensures off_reads { mode.now.cache ≡ CacheUse.Off → OnOk result (IfSome (T.contents tree.old) (λ m. T.reads tree.new ≡ added (T.reads tree.old) (reads_of m path.now))) }
    ensures silent { is_noted mode.now.cache instrument ≡ false → O.taken note.new ≡ O.taken note.old }
    ensures whole { IfSome (T.contents tree.old) (λ m. IsTrusted S.tells m (S.history shelf.old) → LeavesWhole m (S.history shelf.old) (S.history shelf.new)) }
    ensures only { IfErr result IsCutOff }
    ensures tree_fault { IsErrOf result Ending.TreeFault → Rose (T.faults tree.old) (T.faults tree.new) }
    ensures sink_fault { IsErrOf result Ending.SinkFault → Rose (O.faults note.old) (O.faults note.new) }
    ensures counted { O.faults note.old ≤ O.faults note.new }
    ensures contents { T.contents tree.new ≡ T.contents tree.old }
    ensures stats { OnOk result (T.stats tree.new ≡ added (T.stats tree.old) (path.now ∷ [])) }
    ensures stats_part { AddsPrefix (T.stats tree.old) (T.stats tree.new) (path.now ∷ []) }
    ensures reads_part { AddsPrefix (T.reads tree.old) (T.reads tree.new) (path.now ∷ []) }
    ensures listings { T.listings tree.new ≡ T.listings tree.old }
{
    let fetched = match fetch_unit(alloc, tree, shelf, path, mode, steps) {
        Ok(fetched) => fetched,
        Err(TreeFault::Failed) => return Err(Ending::TreeFault),
        Err(TreeFault::NoMemory) => return Err(Ending::NoMemory),
    };
    match note_event(alloc, note, instrument, fetched.event, path) {
        Ok(()) => Ok(fetched.got),
        Err(SinkFault::Failed) => Err(Ending::SinkFault),
        Err(SinkFault::NoMemory) => Err(Ending::NoMemory),
    }
}

/// Runs what a fetch gave, or says that no file stands at the path, or that its text has a syntax error.
fn run_got<O: Sink>(
    alloc: Global,
    out: &mut O,
    err: &mut O,
    path: &Text,
    got: &FetchResult,
) -> Ending
    ensures output { (m : SourceTree) → got.now ≡ got_of m path.now → IfWhole result (O.taken out.new ≡ added (O.taken out.old) (answer_of_file path.now (bytes_at m path.now)).output) }
    ensures errors { (m : SourceTree) → got.now ≡ got_of m path.now → IfWhole result (O.taken err.new ≡ added (O.taken err.old) (answer_of_file path.now (bytes_at m path.now)).errors) }
    ensures ending { (m : SourceTree) → got.now ≡ got_of m path.now → IfWhole result (result ≡ (answer_of_file path.now (bytes_at m path.now)).ending) }
    ensures output_prefix { (m : SourceTree) → got.now ≡ got_of m path.now → AddsPrefix (O.taken out.old) (O.taken out.new) (answer_of_file path.now (bytes_at m path.now)).output }
    ensures errors_prefix { (m : SourceTree) → got.now ≡ got_of m path.now → AddsPrefix (O.taken err.old) (O.taken err.new) (answer_of_file path.now (bytes_at m path.now)).errors }
    ensures only { IsOfRun result }
    ensures tree_fault { result ≢ Ending.TreeFault }
    ensures sink_fault { result ≡ Ending.SinkFault → Rose (O.faults out.old) (O.faults out.new) ⊎ Rose (O.faults err.old) (O.faults err.new) }
{
    match run_or_say(alloc, out, err, path, got) {
        Ok(ending) => ending,
        Err(SinkFault::Failed) => Ending::SinkFault,
        Err(SinkFault::NoMemory) => Ending::NoMemory,
    }
}

#[tactic(auto, using(bs_outside::proofs::Owing::owing, crate::proofs::Gots::got_rules))]
fn run_or_say<O: Sink>(
    alloc: Global,
    out: &mut O,
    err: &mut O,
    path: &Text,
    got: &FetchResult,
) -> Result<Ending, SinkFault>
    ensures output { (m : SourceTree) → got.now ≡ got_of m path.now → OnOk result (O.taken out.new ≡ added (O.taken out.old) (answer_of_file path.now (bytes_at m path.now)).output) }
    ensures errors { (m : SourceTree) → got.now ≡ got_of m path.now → OnOk result (O.taken err.new ≡ added (O.taken err.old) (answer_of_file path.now (bytes_at m path.now)).errors) }
    ensures ending { (m : SourceTree) → got.now ≡ got_of m path.now → IfOk result (λ ending. ending ≡ (answer_of_file path.now (bytes_at m path.now)).ending) }
    ensures output_prefix { (m : SourceTree) → got.now ≡ got_of m path.now → OnErr result (AddsPrefix (O.taken out.old) (O.taken out.new) (answer_of_file path.now (bytes_at m path.now)).output) }
    ensures errors_prefix { (m : SourceTree) → got.now ≡ got_of m path.now → OnErr result (AddsPrefix (O.taken err.old) (O.taken err.new) (answer_of_file path.now (bytes_at m path.now)).errors) }
    ensures only { IfOk result IsOfProgram }
    ensures out_counted { O.faults out.old ≤ O.faults out.new }
    ensures err_counted { O.faults err.old ≤ O.faults err.new }
    ensures failed { IsErrOf result SinkFault.Failed → Rose (O.faults out.old) (O.faults out.new) ⊎ Rose (O.faults err.old) (O.faults err.new) }
{
    match got {
        FetchResult::Whole(unit) => run_unit(alloc, out, err, path, unit),
        FetchResult::Fault { line } => {
            say_syntax(alloc, err, path, *line)?;
            Ok(Ending::Exit(1))
        }
        FetchResult::NotYet => Ok(Ending::NotYet),
        FetchResult::Gone => {
            say_missing(alloc, err, path)?;
            Ok(Ending::Exit(1))
        }
    }
}

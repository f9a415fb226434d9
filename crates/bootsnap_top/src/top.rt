//! The top call.
ghost use Rattle.std.specs.Prelude.{◌≡◌, ◌≢◌, ◌⊎◌, ◌<◌, ◌≤◌, [], ℕ, false, Some, Err, IfSome, length, drop};
ghost use Rattle.std.specs.List.{All};
ghost use Rattle.bs_outside.specs.Cache.{last_of};
ghost use Rattle.bs_outside.specs.Told.{added, AddsPrefix, Rose, SomeRose, TellOne};
ghost use Rattle.bs_outside.specs.SourceTree.{SourceTree};
ghost use Rattle.cache_meaning.specs.Fits.{IsTrusted, EachMomentFits};
ghost use Rattle.cache_meaning.specs.Visits.{LeavesWhole};
ghost use Rattle.compile_cache.specs.Fetching.{IsTrustedFor};
ghost use Rattle.bootsnap_top.specs.Plan.{plan_of};
ghost use Rattle.bootsnap_top.specs.Answer.{answer_of, usage_text, paths_of_plan, reads_of_plan};
ghost use Rattle.bootsnap_top.specs.CachedRun.{cache_of_plan, files_of_plan, notes_plan, notes_of_plan, IsCachedRun, IsPartOfRun};
ghost use Rattle.bootsnap_top.specs.Endings.{IfWhole, EndsAtWord, OfFirst};

use crate::errors::say_usage;
use crate::files::run_file;
use crate::planning::{instrument_of, mode_of, path_of};
use crate::{Desk, Done, Ending, PlanError, Usage, plan};
use bs_outside::{Input, Items, Shelf, Sink, SinkFault, Steps, Text, Tree};
use compile_cache::CacheUse;
use std::alloc::Global;
use std::sync::ledger::Ledger;
use std::thread::Threads;

/// Does what the words ask for: `run [--cache on|off] [--instrument] FILE` runs a Ruby file on the first desk, and each other list of words is
/// refused with the place of its first bad word. A text that has no tree is not run: the line of its syntax error is written, and the call ends with
/// `Exit` of 1. A program that is no small file cannot be run yet. `out` takes the output, `err` the error text, and `note` the events of cache
/// files, where they are asked for. There are 1 to 16 desks, and their trees, where they tell, are one. What is said of content with the cache is
/// said of a shelf that is trusted: what stands there at the entry fits the tree, whatever others rename is whole, and the tree's files are told
/// apart.
pub fn bootsnap<R: Threads + Sync, T: Tree + Send, S: Shelf + Send, I: Input, O: Sink, L: Ledger>(
    _rt: &R,
    alloc: Global,
    words: &[Text],
    desks: &mut [Desk<T, S>],
    _input: &mut I,
    out: &mut O,
    err: &mut O,
    note: &mut O,
    steps: &mut Steps<L>,
) -> Done
    requires some_desk { 0 < length desks.old }
    requires few_desks { length desks.old ≤ 16 }
    requires one_tree { TellOne (λ desk. T.contents desk.tree) desks.old }

    // Where nothing outside cut the call off, output, error text and ending are those of the definition, which knows no cache.
    ensures output { (tree : SourceTree) → All (λ desk. T.contents desk.tree ≡ Some tree) desks.old
        → OfFirst (λ old new. IsTrustedFor (cache_of_plan (plan_of words.now)) S.tells tree (S.history old.shelf)
        → IfWhole result.ending (O.taken out.new ≡ added (O.taken out.old) (answer_of tree words.now).output)) desks.old desks.new }
    ensures errors { (tree : SourceTree) → All (λ desk. T.contents desk.tree ≡ Some tree) desks.old
        → OfFirst (λ old new. IsTrustedFor (cache_of_plan (plan_of words.now)) S.tells tree (S.history old.shelf)
        → IfWhole result.ending (O.taken err.new ≡ added (O.taken err.old) (answer_of tree words.now).errors)) desks.old desks.new }
    ensures ending { (tree : SourceTree) → All (λ desk. T.contents desk.tree ≡ Some tree) desks.old
        → OfFirst (λ old new. IsTrustedFor (cache_of_plan (plan_of words.now)) S.tells tree (S.history old.shelf)
        → IfWhole result.ending (result.ending ≡ (answer_of tree words.now).ending)) desks.old desks.new }
    ensures features { result.features ≡ [] }

    // However the call ended, prefixes of these were written, and nothing else.
    ensures output_prefix { (tree : SourceTree) → All (λ desk. T.contents desk.tree ≡ Some tree) desks.old
        → OfFirst (λ old new. IsTrustedFor (cache_of_plan (plan_of words.now)) S.tells tree (S.history old.shelf)
        → AddsPrefix (O.taken out.old) (O.taken out.new) (answer_of tree words.now).output) desks.old desks.new }
    ensures errors_prefix { (tree : SourceTree) → All (λ desk. T.contents desk.tree ≡ Some tree) desks.old
        → OfFirst (λ old new. IsTrustedFor (cache_of_plan (plan_of words.now)) S.tells tree (S.history old.shelf)
        → AddsPrefix (O.taken err.old) (O.taken err.new) (answer_of tree words.now).errors) desks.old desks.new }

    // However the call ended, each item that it put is whole, and at each moment of the call the cache fits, and whatever a crash leaves of it.
    ensures whole { (tree : SourceTree) → All (λ desk. T.contents desk.tree ≡ Some tree) desks.old
        → OfFirst (λ old new. IsTrusted S.tells tree (S.history old.shelf) → LeavesWhole tree (S.history old.shelf) (S.history new.shelf)) desks.old desks.new }
    ensures moments { (tree : SourceTree) → All (λ desk. T.contents desk.tree ≡ Some tree) desks.old
        → OfFirst (λ old new. IsTrusted S.tells tree (S.history old.shelf)
        → EachMomentFits tree (last_of (S.history old.shelf).start) (S.history old.shelf).past (S.history new.shelf).past) desks.old desks.new }

    // With the cache: the loads and their events, what was read and noted, and what was put; and how far it came, where the call was cut off. Nothing is
    // written before the file was fetched and its event noted.
    ensures ran { (tree : SourceTree) → All (λ desk. T.contents desk.tree ≡ Some tree) desks.old → cache_of_plan (plan_of words.now) ≡ CacheUse.On
        → OfFirst (λ old new. IsTrusted S.tells tree (S.history old.shelf)
        → IfWhole result.ending (IsCachedRun (files_of_plan tree (plan_of words.now)) (notes_of_plan (plan_of words.now)) (S.history old.shelf) (S.history new.shelf)
        (S.faults old.shelf) (S.faults new.shelf) (T.reads old.tree) (T.reads new.tree) (O.taken note.old) (O.taken note.new))) desks.old desks.new }
    ensures part { (tree : SourceTree) → All (λ desk. T.contents desk.tree ≡ Some tree) desks.old → cache_of_plan (plan_of words.now) ≡ CacheUse.On
        → OfFirst (λ old new. IsTrusted S.tells tree (S.history old.shelf)
        → IsPartOfRun (files_of_plan tree (plan_of words.now)) (notes_of_plan (plan_of words.now)) (S.history old.shelf) (S.history new.shelf)
        (S.faults old.shelf) (S.faults new.shelf) (T.reads old.tree) (T.reads new.tree) (O.taken note.old) (O.taken note.new)
        ((O.taken out.new ≡ O.taken out.old) × (O.taken err.new ≡ O.taken err.old))) desks.old desks.new }

    // Without it no shelf is called, and the file that is run is read where it is there. Notes are taken only where they are asked for.
    ensures off { cache_of_plan (plan_of words.now) ≡ CacheUse.Off → OfFirst (λ old new. new.shelf ≡ old.shelf) desks.old desks.new }
    ensures off_reads { (tree : SourceTree) → All (λ desk. T.contents desk.tree ≡ Some tree) desks.old → cache_of_plan (plan_of words.now) ≡ CacheUse.Off
        → IfWhole result.ending (OfFirst (λ old new. T.reads new.tree ≡ added (T.reads old.tree) (reads_of_plan tree (plan_of words.now))) desks.old desks.new) }
    ensures silent { notes_plan (plan_of words.now) ≡ false → O.taken note.new ≡ O.taken note.old }

    // Each of these endings has its cause, told or not; a fault of a shelf is none. The number of an Exit is below 200.
    ensures tree_fault { result.ending ≡ Ending.TreeFault → SomeRose (λ desk. T.faults desk.tree) desks.old desks.new }
    ensures sink_fault { result.ending ≡ Ending.SinkFault → Rose (O.faults out.old) (O.faults out.new) ⊎ (Rose (O.faults err.old) (O.faults err.new) ⊎ Rose (O.faults note.old) (O.faults note.new)) }
    ensures exit { (code : ℕ) → result.ending ≡ Ending.Exit code → code < 200 }
    ensures input_fault { result.ending ≢ Ending.InputFault }
    ensures turns_spent { result.ending ≢ Ending.TurnsSpent }
    ensures store_full { result.ending ≢ Ending.StoreFull }
    ensures bad_word { (place : ℕ) → result.ending ≡ Ending.Usage place → plan_of words.now ≡ Err place }
    ensures bad_word_ends { (place : ℕ) → plan_of words.now ≡ Err place → EndsAtWord result.ending place }

    // One stat, of the file that is run, and at most one read of it; no listing. The other desks and the input are as they were.
    ensures stats { IfWhole result.ending (OfFirst (λ old new. T.stats new.tree ≡ added (T.stats old.tree) (paths_of_plan (plan_of words.now))) desks.old desks.new) }
    ensures stats_part { OfFirst (λ old new. AddsPrefix (T.stats old.tree) (T.stats new.tree) (paths_of_plan (plan_of words.now))) desks.old desks.new }
    ensures reads_part { OfFirst (λ old new. AddsPrefix (T.reads old.tree) (T.reads new.tree) (paths_of_plan (plan_of words.now))) desks.old desks.new }
    ensures listings { OfFirst (λ old new. T.listings new.tree ≡ T.listings old.tree) desks.old desks.new }
    ensures contents { OfFirst (λ old new. T.contents new.tree ≡ T.contents old.tree) desks.old desks.new }
    ensures others { drop 1 desks.new ≡ drop 1 desks.old }
    ensures input { _input.new ≡ _input.old }
{
    let ending = act(alloc, words, &mut desks[0], out, err, note, steps);
    Done {
        ending,
        features: Items::new(alloc),
    }
}

/// Does what the words ask for at one desk.
#[tactic(auto, using(bs_outside::proofs::Owing::owing))]
fn act<T: Tree, S: Shelf, O: Sink, L: Ledger>(
    alloc: Global,
    words: &[Text],
    desk: &mut Desk<T, S>,
    out: &mut O,
    err: &mut O,
    note: &mut O,
    steps: &mut Steps<L>,
) -> Ending
    ensures output { IfSome (T.contents desk.old.tree) (λ m. IsTrustedFor (cache_of_plan (plan_of words.now)) S.tells m (S.history desk.old.shelf)
        → IfWhole result (O.taken out.new ≡ added (O.taken out.old) (answer_of m words.now).output)) }
    ensures errors { IfSome (T.contents desk.old.tree) (λ m. IsTrustedFor (cache_of_plan (plan_of words.now)) S.tells m (S.history desk.old.shelf)
        → IfWhole result (O.taken err.new ≡ added (O.taken err.old) (answer_of m words.now).errors)) }
    ensures ending { IfSome (T.contents desk.old.tree) (λ m. IsTrustedFor (cache_of_plan (plan_of words.now)) S.tells m (S.history desk.old.shelf)
        → IfWhole result (result ≡ (answer_of m words.now).ending)) }
    ensures output_prefix { IfSome (T.contents desk.old.tree) (λ m. IsTrustedFor (cache_of_plan (plan_of words.now)) S.tells m (S.history desk.old.shelf)
        → AddsPrefix (O.taken out.old) (O.taken out.new) (answer_of m words.now).output) }
    ensures errors_prefix { IfSome (T.contents desk.old.tree) (λ m. IsTrustedFor (cache_of_plan (plan_of words.now)) S.tells m (S.history desk.old.shelf)
        → AddsPrefix (O.taken err.old) (O.taken err.new) (answer_of m words.now).errors) }
    ensures whole { IfSome (T.contents desk.old.tree) (λ m. IsTrusted S.tells m (S.history desk.old.shelf) → LeavesWhole m (S.history desk.old.shelf) (S.history desk.new.shelf)) }
    ensures ran { cache_of_plan (plan_of words.now) ≡ CacheUse.On → IfSome (T.contents desk.old.tree) (λ m. IsTrusted S.tells m (S.history desk.old.shelf)
        → IfWhole result (IsCachedRun (files_of_plan m (plan_of words.now)) (notes_of_plan (plan_of words.now)) (S.history desk.old.shelf) (S.history desk.new.shelf)
        (S.faults desk.old.shelf) (S.faults desk.new.shelf) (T.reads desk.old.tree) (T.reads desk.new.tree) (O.taken note.old) (O.taken note.new))) }
    ensures part { cache_of_plan (plan_of words.now) ≡ CacheUse.On → IfSome (T.contents desk.old.tree) (λ m. IsTrusted S.tells m (S.history desk.old.shelf)
        → IsPartOfRun (files_of_plan m (plan_of words.now)) (notes_of_plan (plan_of words.now)) (S.history desk.old.shelf) (S.history desk.new.shelf)
        (S.faults desk.old.shelf) (S.faults desk.new.shelf) (T.reads desk.old.tree) (T.reads desk.new.tree) (O.taken note.old) (O.taken note.new)
        ((O.taken out.new ≡ O.taken out.old) × (O.taken err.new ≡ O.taken err.old))) }
    ensures off { cache_of_plan (plan_of words.now) ≡ CacheUse.Off → desk.new.shelf ≡ desk.old.shelf }
    ensures off_reads { cache_of_plan (plan_of words.now) ≡ CacheUse.Off → IfSome (T.contents desk.old.tree) (λ m. IfWhole result (T.reads desk.new.tree ≡ added (T.reads desk.old.tree) (reads_of_plan m (plan_of words.now)))) }
    ensures silent { notes_plan (plan_of words.now) ≡ false → O.taken note.new ≡ O.taken note.old }
    ensures tree_fault { result ≡ Ending.TreeFault → Rose (T.faults desk.old.tree) (T.faults desk.new.tree) }
    ensures sink_fault { result ≡ Ending.SinkFault → Rose (O.faults out.old) (O.faults out.new) ⊎ (Rose (O.faults err.old) (O.faults err.new) ⊎ Rose (O.faults note.old) (O.faults note.new)) }
    ensures exit { (code : ℕ) → result ≡ Ending.Exit code → code < 200 }
    ensures input_fault { result ≢ Ending.InputFault }
    ensures turns_spent { result ≢ Ending.TurnsSpent }
    ensures store_full { result ≢ Ending.StoreFull }
    ensures bad_word { (place : ℕ) → result ≡ Ending.Usage place → plan_of words.now ≡ Err place }
    ensures bad_word_ends { (place : ℕ) → plan_of words.now ≡ Err place → EndsAtWord result place }
    ensures stats { IfWhole result (T.stats desk.new.tree ≡ added (T.stats desk.old.tree) (paths_of_plan (plan_of words.now))) }
    ensures stats_part { AddsPrefix (T.stats desk.old.tree) (T.stats desk.new.tree) (paths_of_plan (plan_of words.now)) }
    ensures reads_part { AddsPrefix (T.reads desk.old.tree) (T.reads desk.new.tree) (paths_of_plan (plan_of words.now)) }
    ensures listings { T.listings desk.new.tree ≡ T.listings desk.old.tree }
    ensures contents { T.contents desk.new.tree ≡ T.contents desk.old.tree }
{
    match plan(alloc, words) {
        Ok(planned) => {
            let (path, mode) = (path_of(&planned), mode_of(&planned));
            let instrument = instrument_of(&planned);
            run_file(alloc, desk, out, err, note, path, mode, instrument, steps)
        }
        Err(PlanError::Usage(Usage(place))) => refuse(alloc, err, place),
        Err(PlanError::NoMemory) => Ending::NoMemory,
    }
}

/// Refuses the word at the place.
#[tactic(auto, using(bs_outside::proofs::Owing::owing))]
fn refuse<O: Sink>(alloc: Global, err: &mut O, place: u64) -> Ending
    ensures written { IfWhole result (O.taken err.new ≡ added (O.taken err.old) (usage_text place)) }
    ensures prefix { AddsPrefix (O.taken err.old) (O.taken err.new) (usage_text place) }
    ensures ends { EndsAtWord result place }
    ensures failed { result ≡ Ending.SinkFault → Rose (O.faults err.old) (O.faults err.new) }
{
    match say_usage(alloc, err, place) {
        Ok(()) => Ending::Usage(place),
        Err(SinkFault::Failed) => Ending::SinkFault,
        Err(SinkFault::NoMemory) => Ending::NoMemory,
    }
}

//! The fetch of one file.
ghost use Rattle.std.specs.Prelude.{◌≡◌, ◌≢◌, ◌↔◌, ◌⊎◌, ◌≤◌, ◌<◌, ◌^◌, ◌∷◌, [], ℕ, List, Some, None, IsTrue, IfOk, IfSome, IfNone, OnOk, OnErr, IsErrOf, length};
ghost use Rattle.bs_outside.specs.Told.{added, AddsPrefix, Rose};
ghost use Rattle.bs_outside.specs.Cache.{last_of};
ghost use Rattle.bs_outside.specs.History.{Since};
ghost use Rattle.iseq_types.specs.declared.sequences.Unit.{Unit as CompiledUnit};
ghost use Rattle.cache_meaning.specs.Entry.{file_at};
ghost use Rattle.cache_meaning.specs.Fits.{IsTrusted, EachMomentFits};
ghost use Rattle.cache_meaning.specs.Visits.{HasBegun, LeavesWhole};
ghost use Rattle.compile_cache.specs.Fetching.{got_of, IsTrustedFor, IsStatOf, HasHit, HoldsUnit, HasFetched, reads_of, event_with};

use crate::compiling::{compile, compile_anew};
use crate::shelf::look;
use crate::{CacheUse, FetchResult, Fetched, Mode};
use bs_outside::{CacheKind, Image, Kind, NoMemory, Shelf, Stat, Steps, Text, Tree, TreeFault};
use cache_key::{Event, cache_name, event_of};
use iseq_dump::load_all;
use iseq_types::Unit;
use std::alloc::Global;
use std::sync::ledger::Ledger;

/// How many bytes stand before the payload of an entry.
const KEY_LENGTH: u64 = 64;

/// The stat of the path, where a file stands there.
fn file_stat<T: Tree>(alloc: Global, tree: &mut T, path: &Text) -> Result<Option<Stat>, TreeFault>
    ensures found { IfOk result (λ found. IfSome (T.contents tree.old) (λ m. IsStatOf m path.now found)) }
    ensures contents { T.contents tree.new ≡ T.contents tree.old }
    ensures stats { OnOk result (T.stats tree.new ≡ added (T.stats tree.old) (path.now ∷ [])) }
    ensures err { OnErr result (T.stats tree.new ≡ T.stats tree.old) }
    ensures reads { T.reads tree.new ≡ T.reads tree.old }
    ensures listings { T.listings tree.new ≡ T.listings tree.old }
    ensures counted { T.faults tree.old ≤ T.faults tree.new }
    ensures failed { IsErrOf result TreeFault.Failed → Rose (T.faults tree.old) (T.faults tree.new) }
{
    match tree.stat(alloc, path)? {
        Some(stat) => match stat.kind {
            Kind::File => Ok(Some(stat)),
            Kind::Dir => Ok(None),
        },
        None => Ok(None),
    }
}

/// The unit that the image holds, where it is a hit.
fn unit_in<L: Ledger>(
    alloc: Global,
    event: Event,
    image: &Option<Image>,
    steps: &mut Steps<L>,
) -> Result<Option<Unit>, NoMemory>
    ensures found { IfOk result (λ found. IfSome found (HoldsUnit event image.now)) }
    ensures none { IfOk result (λ found. IfNone found ((u : CompiledUnit) → HoldsUnit event image.now u → ⊥)) }
    ensures short { event ≡ Event.Hit → IfSome image.now (λ bytes. length bytes < 2 ^ 64) }
{
    match (event, image) {
        (Event::Hit, Some(image)) => {
            // The length tells that an image has fewer than 2^64 bytes, as each spelling does.
            let _len = image.len();
            load_all(alloc, image, KEY_LENGTH, steps)
        }
        _ => Ok(None),
    }
}

/// Fetches the file without the cache.
#[tactic(auto, using(bs_outside::proofs::Owing::none_came, bs_outside::proofs::Owing::whole_prefix))]
fn fetch_plainly<T: Tree>(alloc: Global, tree: &mut T, path: &Text) -> Result<Fetched, TreeFault>
    ensures got { IfOk result (λ f. IfSome (T.contents tree.old) (λ m. f.got ≡ got_of m path.now)) }
    ensures event { IfOk result (λ f. f.event ≡ None) }
    ensures contents { T.contents tree.new ≡ T.contents tree.old }
    ensures reads { OnOk result (T.reads tree.new ≡ added (T.reads tree.old) (path.now ∷ [])) }
    ensures reads_part { AddsPrefix (T.reads tree.old) (T.reads tree.new) (path.now ∷ []) }
    ensures stats { T.stats tree.new ≡ T.stats tree.old }
    ensures listings { T.listings tree.new ≡ T.listings tree.old }
    ensures counted { T.faults tree.old ≤ T.faults tree.new }
    ensures failed { IsErrOf result TreeFault.Failed → Rose (T.faults tree.old) (T.faults tree.new) }
{
    let got = match tree.read(alloc, path)? {
        Some(contents) => compile(alloc, path, contents.as_slice())?,
        None => FetchResult::Gone,
    };
    Ok(Fetched { event: None, got })
}

/// What a load came to, unless the file was gone when it was read.
fn fetched_anew(event: Event, got: FetchResult) -> Fetched
    ensures got { result.got ≡ got }
    ensures event { result.event ≡ event_with event got }
{
    match got {
        FetchResult::Gone => Fetched { event: None, got },
        FetchResult::Fault { .. } | FetchResult::NotYet | FetchResult::Whole(_) => Fetched {
            event: Some(event),
            got,
        },
    }
}

/// Fetches the file with this stat through the cache.
#[tactic(auto, using(bs_outside::proofs::Owing::none_came, bs_outside::proofs::Owing::whole_prefix))]
fn fetch_cached<T: Tree, S: Shelf, L: Ledger>(
    alloc: Global,
    tree: &mut T,
    shelf: &mut S,
    path: &Text,
    stat: &Stat,
    steps: &mut Steps<L>,
) -> Result<Fetched, TreeFault>
    ensures fetched { IfOk result (λ f. IfSome (T.contents tree.old) (λ m. IsTrusted S.tells m (S.history shelf.old) → IsStatOf m path.now (Some stat.now) → HasFetched m path.now (S.history shelf.old) (S.history shelf.new)
        (S.faults shelf.old) (S.faults shelf.new) (T.reads tree.old) (T.reads tree.new) f.event × (f.got ≡ got_of m path.now))) }
    ensures fault { IfOk result (λ f. IfSome (T.contents tree.old) (λ m. (line : ℕ) → f.got ≡ FetchResult.Fault line → got_of m path.now ≡ FetchResult.Fault line)) }
    ensures not_yet { IfOk result (λ f. IfSome (T.contents tree.old) (λ m. f.got ≡ FetchResult.NotYet → got_of m path.now ≡ FetchResult.NotYet)) }
    ensures no_hit { IfOk result (λ f. IfSome (T.contents tree.old) (λ m. f.event ≢ Some Event.Hit → f.got ≡ got_of m path.now)) }
    ensures hit { IsTrue S.tells → IfOk result (λ f. IfSome (T.contents tree.old) (λ m. IsStatOf m path.now (Some stat.now) → f.event ≡ Some Event.Hit → HasHit m path.now (S.history shelf.old) (S.history shelf.new)
        (T.reads tree.old) (T.reads tree.new) f.got)) }
    ensures gone { IfOk result (λ f. IfSome (T.contents tree.old) (λ m. f.got ≡ FetchResult.Gone → got_of m path.now ≡ FetchResult.Gone)) }
    ensures event { IfOk result (λ f. f.event ≡ None ↔ f.got ≡ FetchResult.Gone) }
    ensures begun { OnErr result (IfSome (T.contents tree.old) (λ m. IsTrusted S.tells m (S.history shelf.old) → IsStatOf m path.now (Some stat.now) → HasBegun (file_at m path.now) (S.history shelf.old) (S.history shelf.new) (T.reads tree.old) (T.reads tree.new))) }
    ensures whole { IfSome (T.contents tree.old) (λ m. IsTrusted S.tells m (S.history shelf.old) → IsStatOf m path.now (Some stat.now) → LeavesWhole m (S.history shelf.old) (S.history shelf.new)) }
    ensures contents { T.contents tree.new ≡ T.contents tree.old }
    ensures reads_part { AddsPrefix (T.reads tree.old) (T.reads tree.new) (path.now ∷ []) }
    ensures stats { T.stats tree.new ≡ T.stats tree.old }
    ensures listings { T.listings tree.new ≡ T.listings tree.old }
    ensures counted { T.faults tree.old ≤ T.faults tree.new }
    ensures failed { IsErrOf result TreeFault.Failed → Rose (T.faults tree.old) (T.faults tree.new) }
    ensures shelf_faults { S.faults shelf.old ≤ S.faults shelf.new }
{
    let name = cache_name(CacheKind::Iseq, path.as_slice());
    let image = look(alloc, shelf, &name)?;
    let event = event_of(&image, stat, None);
    if let Some(unit) = unit_in(alloc, event, &image, steps)? {
        return Ok(Fetched {
            event: Some(event),
            got: FetchResult::Whole(unit),
        });
    }
    let got = compile_anew(alloc, tree, shelf, path, &name, stat, event)?;
    Ok(fetched_anew(event, got))
}

/// Fetches the unit of the file at the path. Its stat comes first. With the cache, its cache file is loaded next; where that is a hit, the unit is
/// taken from there. Else the file is read and compiled, and after any event but a hit its entry is published; a text that has no tree, and one
/// whose tree is no small file, has no unit and no entry. A fault of the shelf is never answered: a load that fails is a miss, and what can't be
/// published is left.
///
/// # Errors
///
/// Where the tree fails, or there is not memory enough.
pub fn fetch_unit<T: Tree, S: Shelf, L: Ledger>(
    alloc: Global,
    tree: &mut T,
    shelf: &mut S,
    path: &Text,
    mode: &Mode,
    steps: &mut Steps<L>,
) -> Result<Fetched, TreeFault>
    // From every cache that fits, the unit is the one of the source.
    ensures got { IfOk result (λ f. IfSome (T.contents tree.old) (λ m. IsTrustedFor mode.now.cache S.tells m (S.history shelf.old) → f.got ≡ got_of m path.now)) }
    ensures no_hit { IfOk result (λ f. IfSome (T.contents tree.old) (λ m. f.event ≢ Some Event.Hit → f.got ≡ got_of m path.now)) }
    ensures hit { IsTrue S.tells → IfOk result (λ f. IfSome (T.contents tree.old) (λ m. f.event ≡ Some Event.Hit → HasHit m path.now (S.history shelf.old) (S.history shelf.new)
        (T.reads tree.old) (T.reads tree.new) f.got)) }
    ensures fault { IfOk result (λ f. IfSome (T.contents tree.old) (λ m. (line : ℕ) → f.got ≡ FetchResult.Fault line → got_of m path.now ≡ FetchResult.Fault line)) }
    ensures not_yet { IfOk result (λ f. IfSome (T.contents tree.old) (λ m. f.got ≡ FetchResult.NotYet → got_of m path.now ≡ FetchResult.NotYet)) }
    ensures gone { IfOk result (λ f. IfSome (T.contents tree.old) (λ m. f.got ≡ FetchResult.Gone ↔ file_at m path.now ≡ [])) }
    ensures event { IfOk result (λ f. f.event ≡ None ↔ (mode.now.cache ≡ CacheUse.Off) ⊎ (f.got ≡ FetchResult.Gone)) }

    // With the cache: one load of the file that is there, its event, its read where it was no hit, and then its item.
    ensures fetched { mode.now.cache ≡ CacheUse.On → IfOk result (λ f. IfSome (T.contents tree.old) (λ m. IsTrusted S.tells m (S.history shelf.old) → HasFetched m path.now (S.history shelf.old) (S.history shelf.new)
        (S.faults shelf.old) (S.faults shelf.new) (T.reads tree.old) (T.reads tree.new) f.event)) }
    ensures begun { mode.now.cache ≡ CacheUse.On → OnErr result (IfSome (T.contents tree.old) (λ m. IsTrusted S.tells m (S.history shelf.old) → HasBegun (file_at m path.now) (S.history shelf.old) (S.history shelf.new) (T.reads tree.old) (T.reads tree.new))) }

    // Without it the shelf is not called, and the file is read.
    ensures off { mode.now.cache ≡ CacheUse.Off → shelf.new ≡ shelf.old }
    ensures off_reads { mode.now.cache ≡ CacheUse.Off → OnOk result (IfSome (T.contents tree.old) (λ m. T.reads tree.new ≡ added (T.reads tree.old) (reads_of m path.now))) }

    // For every answer: own items are whole, and the cache fits at each moment.
    ensures whole { IfSome (T.contents tree.old) (λ m. IsTrusted S.tells m (S.history shelf.old) → LeavesWhole m (S.history shelf.old) (S.history shelf.new)) }
    ensures moments { IfSome (T.contents tree.old) (λ m. IsTrusted S.tells m (S.history shelf.old) → EachMomentFits m (last_of (S.history shelf.old).start) (S.history shelf.old).past (S.history shelf.new).past) }
    ensures contents { T.contents tree.new ≡ T.contents tree.old }
    ensures stats { OnOk result (T.stats tree.new ≡ added (T.stats tree.old) (path.now ∷ [])) }
    ensures stats_part { OnErr result (AddsPrefix (T.stats tree.old) (T.stats tree.new) (path.now ∷ [])) }
    ensures reads_part { AddsPrefix (T.reads tree.old) (T.reads tree.new) (path.now ∷ []) }
    ensures listings { T.listings tree.new ≡ T.listings tree.old }
    ensures counted { T.faults tree.old ≤ T.faults tree.new }
    ensures tree_fault { IsErrOf result TreeFault.Failed → Rose (T.faults tree.old) (T.faults tree.new) }
    ensures shelf_faults { S.faults shelf.old ≤ S.faults shelf.new }
{
    let Some(stat) = file_stat(alloc, tree, path)? else {
        return Ok(Fetched {
            event: None,
            got: FetchResult::Gone,
        });
    };
    match mode.cache {
        CacheUse::Off => fetch_plainly(alloc, tree, path),
        CacheUse::On => fetch_cached(alloc, tree, shelf, path, &stat, steps),
    }
}

//! What the words ask for.
ghost use Rattle.std.specs.Prelude.{◌≡◌, ◌+◌, ◌∷◌, [], false, Ok, IfOk, IfErr, ok_or, ◌<◌, ◌^◌};
ghost use Rattle.bs_outside.specs.Paths.{normal_of};
ghost use Rattle.bootsnap_top.specs.Plan.{plan_of, plan_from, plan_at_file, no_options, with_option, with_value, cache_use_of, is_cache_option, is_instrument_option, begins_with_dash, mode_of, instrument_of, path_of};
ghost use Rattle.bootsnap_top.specs.Endings.{IsPlanError};
ghost use Rattle.bootsnap_top.specs.declared.planning.PlanError.TheVariants as plan_error;

use bs_outside::{Text, normal};
use compile_cache::{CacheUse, Mode};
use std::alloc::{AllocError, Global};
use thiserror::Error;

/// What the words ask for.
#[derive(Drop, Debug)]
pub enum Planned {
    /// The file at this path is run in this mode. With `instrument` it is noted how each file was fetched.
    Run {
        mode: Mode,
        instrument: bool,
        file: Text,
    },
}

/// The place of the first bad word, counted from 1. A missing word stands behind the last.
#[derive(Drop, Debug, Clone, Copy, PartialEq, Eq, Error)]
#[error("word {0}")]
pub struct Usage(pub u64);

/// Why the words are no plan.
#[derive(Drop, Debug, Error)]
pub enum PlanError {
    /// A word is bad.
    #[error("{0}")]
    Usage(Usage),
    #[error("out of memory")]
    NoMemory,
}

impl From<AllocError> for PlanError {
    ghost from_gives = { λ _ error. error ≡ plan_error.NoMemory };

    fn from(_: AllocError) -> Self {
        PlanError::NoMemory
    }
}

/// What the options before a word said.
#[derive(Clone, Copy)]
struct Options {
    /// The value of `--cache`, where it was named.
    cache: Option<CacheUse>,
    /// Whether `--instrument` was named.
    instrument: bool,
}

/// Reads the words: `run [--cache on|off] [--instrument] FILE`, where the options stand in any order and FILE is named from `/`. Without
/// `--cache` the cache is on.
pub fn plan(alloc: Global, words: &[Text]) -> Result<Planned, PlanError>
    ensures planned { IfOk result (λ planned. plan_of words.now ≡ Ok planned) }
    ensures bad { IfErr result (IsPlanError (plan_of words.now)) }
{
    match words {
        [first, rest @ ..] if first.as_slice() == b"run".as_slice() => plan_run(alloc, rest),
        _ => Err(bad(1)),
    }
}

/// Reads the words behind `run`.
fn plan_run(alloc: Global, words: &[Text]) -> Result<Planned, PlanError>
    ensures planned { IfOk result (λ planned. plan_from 2 false no_options words.now ≡ Ok planned) }
    ensures bad { IfErr result (IsPlanError (plan_from 2 false no_options words.now)) }
{
    let mut options = Options {
        cache: None,
        instrument: false,
    };
    let mut place = 2;
    let mut left = words;
    while let [word, rest @ ..] = left {
        if !begins_with_dash(word.as_slice()) {
            return plan_at_file(alloc, place, options, word, rest);
        }
        options = with_option(options, word.as_slice()).ok_or(bad(place))?;
        place += 1;
        left = rest;
        if is_cache_option(word.as_slice()) {
            let [value, behind @ ..] = rest else {
                break;
            };
            options = with_value(options, value.as_slice()).ok_or(bad(place))?;
            place += 1;
            left = behind;
        }
    }
    // A word is missing here.
    Err(bad(place))
}

/// Reads FILE, which stands at this place, and what is behind it.
fn plan_at_file(
    alloc: Global,
    place: u64,
    options: Options,
    word: &Text,
    behind: &[Text],
) -> Result<Planned, PlanError>
    requires { place + 1 < 2 ^ 64 }
    ensures planned { IfOk result (λ planned. plan_at_file place options (normal_of (47 ∷ []) word.now) behind.now ≡ Ok planned) }
    ensures bad { IfErr result (IsPlanError (plan_at_file place options (normal_of (47 ∷ []) word.now) behind.now)) }
{
    let root = Text::new(alloc, b"/")?;
    let file = normal(alloc, &root, word.as_slice())?.ok_or(bad(place))?;
    if !behind.is_empty() {
        return Err(bad(place + 1));
    }
    let cache = options.cache.unwrap_or(CacheUse::On);
    Ok(Planned::Run {
        mode: Mode { cache },
        instrument: options.instrument,
        file,
    })
}

/// The options with the one that the word names, if it names one that was not named before. The value of `--cache` is still to come.
fn with_option(options: Options, word: &[u8]) -> Option<Options>
    ensures { result ≡ with_option options word.now }
{
    if is_cache_option(word) && options.cache.is_none() {
        Some(options)
    } else if is_instrument_option(word) && !options.instrument {
        Some(Options {
            instrument: true,
            ..options
        })
    } else {
        None
    }
}

/// The options with this value of `--cache`, if it is one.
fn with_value(options: Options, word: &[u8]) -> Option<Options>
    ensures { result ≡ with_value options word.now }
{
    let cache = Some(cache_use(word)?);
    Some(Options { cache, ..options })
}

fn cache_use(word: &[u8]) -> Option<CacheUse>
    ensures { result ≡ cache_use_of word.now }
{
    if word == b"on".as_slice() {
        Some(CacheUse::On)
    } else if word == b"off".as_slice() {
        Some(CacheUse::Off)
    } else {
        None
    }
}

fn is_cache_option(word: &[u8]) -> bool
    ensures { result ≡ is_cache_option word.now }
{
    word == b"--cache".as_slice()
}

fn is_instrument_option(word: &[u8]) -> bool
    ensures { result ≡ is_instrument_option word.now }
{
    word == b"--instrument".as_slice()
}

fn begins_with_dash(word: &[u8]) -> bool
    ensures { result ≡ begins_with_dash word.now }
{
    match word {
        [] => false,
        [first, ..] => *first == b'-',
    }
}

fn bad(place: u64) -> PlanError
    ensures { result ≡ PlanError.Usage (record { 0 = place }) }
{
    PlanError::Usage(Usage(place))
}

/// How files are fetched.
pub fn mode_of(planned: &Planned) -> &Mode
    ensures { result.now ≡ mode_of planned.now }
{
    let Planned::Run { mode, .. } = planned;
    mode
}

/// Whether it is noted how each file was fetched.
pub fn instrument_of(planned: &Planned) -> bool
    ensures { result ≡ instrument_of planned.now }
{
    let Planned::Run { instrument, .. } = planned;
    *instrument
}

/// The path of the file that is run.
pub fn path_of(planned: &Planned) -> &Text
    ensures { result.now ≡ path_of planned.now }
{
    let Planned::Run { file, .. } = planned;
    file
}

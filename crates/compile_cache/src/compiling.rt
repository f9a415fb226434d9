//! What is made of a source: its unit, and its entry.
ghost use Rattle.std.specs.Prelude.{◌≡◌, ◌⊎◌, ◌≤◌, ◌∷◌, ◌++◌, [], List, ℕ, Some, IsTrue, IfOk, IfSome, OnOk, OnErr, IsErrOf};
ghost use Rattle.bs_outside.specs.Told.{added, AddsPrefix, Rose};
ghost use Rattle.bs_outside.specs.History.{Since};
ghost use Rattle.bs_outside.specs.SourceTree.{SourceTree};
ghost use Rattle.cache_key.specs.Key.{FitsKey, key_bytes, key_version};
ghost use Rattle.iseq_types.specs.declared.sequences.Unit.{Unit as CompiledUnit};
ghost use Rattle.iseq_dump.specs.Dump.{CanBeDumped};
ghost use Rattle.cache_meaning.specs.Payload.{dump_of};
ghost use Rattle.cache_meaning.specs.Entry.{numbers_with, entry_with};
ghost use Rattle.cache_meaning.specs.LeftOut.{PutsAllBut, PutsPart};
ghost use Rattle.ruby_tree.specs.Read.{tree_of};
ghost use Rattle.small_form.specs.SmallForm.{small_of};
ghost use Rattle.compile_cache.specs.Fetching.{got_of, got_of_small, got_of_found, payload_in, items_with_name, due, PutsNothingOrFits, PutsSource, PutsSourcePart};

use crate::FetchResult;
use crate::shelf::put;
use crate::small_units::unit_of;
use bs_outside::{CacheName, NoMemory, Shelf, Stat, Text, Tree, TreeFault};
use cache_key::{Event, fnv1a, key_of};
use iseq_dump::dump;
use iseq_types::Unit;
use ruby_reader::{ReadError, read_program};
use ruby_tree::Program;
use small_form::{SmallFile, small_file};
use std::alloc::{AllocError, Global};

/// The key of a source with this stat.
fn key_with(stat: Stat, digest: u64, data_size: u64) -> [u8; 64]
    ensures key { result ≡ key_bytes key_version (record { size = stat.size; mtime = stat.mtime; data_size = data_size; digest = digest }) }
    ensures fits { FitsKey (record { size = stat.size; mtime = stat.mtime; data_size = data_size; digest = digest }) }
{
    key_of(&stat, digest, data_size)
}

/// The entry of a source with this stat and these contents, whose unit this is.
#[tactic(auto, unfolding(cache_meaning::specs::Payload::dump_of))]
fn entry_with(alloc: Global, stat: &Stat, contents: &[u8], unit: &Unit) -> Result<Vec<u8>, NoMemory>
    requires { CanBeDumped unit.now }
    ensures bytes { IfOk result (λ entry. entry.items ≡ entry_with stat.now contents.now (dump_of unit.now)) }
    ensures fits { OnOk result (FitsKey (numbers_with stat.now contents.now (dump_of unit.now))) }
{
    let payload = dump(alloc, unit)?;
    let key = key_with(*stat, fnv1a(contents), payload.len() as u64);
    let mut entry = key.to_vec(alloc)?;
    entry.extend_from_slice(payload.as_slice())?;
    Ok(entry)
}

/// Publishes the entry of a source that was compiled.
fn put_unit<S: Shelf>(
    alloc: Global,
    shelf: &mut S,
    name: &CacheName,
    stat: &Stat,
    contents: &[u8],
    got: &FetchResult,
) -> Result<(), NoMemory>
    requires { (u : CompiledUnit) → got.now ≡ FetchResult.Whole u → CanBeDumped u }
    ensures ok { IsTrue S.tells → OnOk result (PutsAllBut (S.history shelf.old) (S.history shelf.new) (S.faults shelf.old) (S.faults shelf.new)
        (items_with_name name.now stat.now contents.now (payload_in got.now))) }
    ensures err { IsTrue S.tells → OnErr result (PutsPart (S.history shelf.old) (S.history shelf.new) (items_with_name name.now stat.now contents.now (payload_in got.now))) }
    ensures fits { IsTrue S.tells → PutsNothingOrFits (S.history shelf.old) (S.history shelf.new) stat.now contents.now got.now }
    ensures faults { S.faults shelf.old ≤ S.faults shelf.new }
{
    match got {
        FetchResult::Whole(unit) => {
            let entry = entry_with(alloc, stat, contents, unit)?;
            put(alloc, shelf, name, &entry)
        }
        FetchResult::Fault { .. } | FetchResult::NotYet | FetchResult::Gone => Ok(()),
    }
}

/// The same, but nothing after a hit.
fn put_unless_hit<S: Shelf>(
    alloc: Global,
    shelf: &mut S,
    name: &CacheName,
    event: Event,
    stat: &Stat,
    contents: &[u8],
    got: &FetchResult,
) -> Result<(), NoMemory>
    requires { (u : CompiledUnit) → got.now ≡ FetchResult.Whole u → CanBeDumped u }
    ensures ok { IsTrue S.tells → OnOk result (PutsAllBut (S.history shelf.old) (S.history shelf.new) (S.faults shelf.old) (S.faults shelf.new)
        (due name.now event stat.now contents.now got.now)) }
    ensures err { IsTrue S.tells → OnErr result (PutsPart (S.history shelf.old) (S.history shelf.new) (due name.now event stat.now contents.now got.now)) }
    ensures fits { IsTrue S.tells → PutsNothingOrFits (S.history shelf.old) (S.history shelf.new) stat.now contents.now got.now }
    ensures faults { S.faults shelf.old ≤ S.faults shelf.new }
{
    match event {
        Event::Hit => Ok(()),
        Event::Miss | Event::Stale | Event::Revalidated => put_unit(
            alloc, shelf, name, stat, contents, got,
        ),
    }
}

/// What these contents of the file at the path come to.
pub fn compile(alloc: Global, path: &Text, contents: &[u8]) -> Result<FetchResult, NoMemory>
    ensures { IfOk result (λ got. got ≡ got_of_found path.now (Some contents.now)) }
{
    match read_program(alloc, contents) {
        Ok(program) => compile_program(alloc, path, program),
        Err(ReadError::Syntax(fault)) => Ok(FetchResult::Fault { line: fault.line }),
        Err(ReadError::NoMemory) => Err(AllocError),
    }
}

/// What a program that was read comes to.
fn compile_program(alloc: Global, path: &Text, program: Program) -> Result<FetchResult, NoMemory>
    ensures { IfOk result (λ got. got ≡ got_of_small path.now (small_of (tree_of program.symbols program.root))) }
{
    let file = small_file(alloc, &program)?;
    compile_file(alloc, path, file)
}

/// What a small file comes to, if there is one.
fn compile_file(
    alloc: Global,
    path: &Text,
    file: Option<SmallFile>,
) -> Result<FetchResult, NoMemory>
    ensures { IfOk result (λ got. got ≡ got_of_small path.now file) }
{
    match file {
        Some(file) => Ok(FetchResult::Whole(unit_of(alloc, path, &file)?)),
        None => Ok(FetchResult::NotYet),
    }
}

/// Reads the file at the path and compiles it. After any event but a hit its entry is published under the name.
pub fn compile_anew<T: Tree, S: Shelf>(
    alloc: Global,
    tree: &mut T,
    shelf: &mut S,
    path: &Text,
    name: &CacheName,
    stat: &Stat,
    event: Event,
) -> Result<FetchResult, TreeFault>
    ensures got { IfOk result (λ got. IfSome (T.contents tree.old) (λ m. got ≡ got_of m path.now)) }
    ensures puts { IsTrue S.tells → OnOk result (IfSome (T.contents tree.old) (λ m. PutsSource m path.now name.now stat.now event
        (S.history shelf.old) (S.history shelf.new) (S.faults shelf.old) (S.faults shelf.new))) }
    ensures part { IsTrue S.tells → IfSome (T.contents tree.old) (λ m. PutsSourcePart m path.now name.now stat.now event (S.history shelf.old) (S.history shelf.new)) }
    ensures contents { T.contents tree.new ≡ T.contents tree.old }
    ensures reads { OnOk result (T.reads tree.new ≡ added (T.reads tree.old) (path.now ∷ [])) }
    ensures reads_part { OnErr result (AddsPrefix (T.reads tree.old) (T.reads tree.new) (path.now ∷ [])) }
    ensures stats { T.stats tree.new ≡ T.stats tree.old }
    ensures listings { T.listings tree.new ≡ T.listings tree.old }
    ensures counted { T.faults tree.old ≤ T.faults tree.new }
    ensures failed { IsErrOf result TreeFault.Failed → Rose (T.faults tree.old) (T.faults tree.new) }
    ensures shelf_faults { S.faults shelf.old ≤ S.faults shelf.new }
{
    let Some(contents) = tree.read(alloc, path)? else {
        return Ok(FetchResult::Gone);
    };
    let text = contents.as_slice();
    let got = compile(alloc, path, text)?;
    put_unless_hit(alloc, shelf, name, event, stat, text, &got)?;
    Ok(got)
}

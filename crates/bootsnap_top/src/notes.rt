//! Notes of events.
ghost use Rattle.std.specs.Prelude.{◌≡◌, ◌≤◌, IfOk, OnOk, OnErr, IsErrOf};
ghost use Rattle.bs_outside.specs.Told.{added, AddsPrefix, Rose};
ghost use Rattle.cache_meaning.specs.Visits.{word_of, note_of};
ghost use Rattle.bootsnap_top.specs.CachedRun.{noted_of};

use bs_outside::{NoMemory, Sink, SinkFault, Text, put_all};
use cache_key::Event;
use std::alloc::Global;

/// Writes the event of the file at the path, where that is asked for and there is one.
#[tactic(auto, using(bs_outside::proofs::Owing::none_came, crate::proofs::CachedRuns::nothing_added))]
pub fn note_event<O: Sink>(
    alloc: Global,
    note: &mut O,
    asked: bool,
    event: Option<Event>,
    path: &Text,
) -> Result<(), SinkFault>
    ensures ok { OnOk result (O.taken note.new ≡ added (O.taken note.old) (noted_of asked event path.now)) }
    ensures err { OnErr result (AddsPrefix (O.taken note.old) (O.taken note.new) (noted_of asked event path.now)) }
    ensures counted { O.faults note.old ≤ O.faults note.new }
    ensures failed { IsErrOf result SinkFault.Failed → Rose (O.faults note.old) (O.faults note.new) }
{
    match event {
        Some(event) if asked => say_event(alloc, note, event, path),
        _ => Ok(()),
    }
}

/// Writes the event of the file at the path.
#[tactic(auto, using(bs_outside::proofs::Owing::none_came))]
fn say_event<O: Sink>(
    alloc: Global,
    note: &mut O,
    event: Event,
    path: &Text,
) -> Result<(), SinkFault>
    ensures ok { OnOk result (O.taken note.new ≡ added (O.taken note.old) (note_of event path.now)) }
    ensures err { OnErr result (AddsPrefix (O.taken note.old) (O.taken note.new) (note_of event path.now)) }
    ensures counted { O.faults note.old ≤ O.faults note.new }
    ensures failed { IsErrOf result SinkFault.Failed → Rose (O.faults note.old) (O.faults note.new) }
{
    match note_of(alloc, event, path) {
        Ok(text) => put_all(alloc, note, &text),
        Err(_) => Err(SinkFault::NoMemory),
    }
}

fn note_of(alloc: Global, event: Event, path: &Text) -> Result<Vec<u8>, NoMemory>
    ensures { IfOk result (λ text. text.items ≡ note_of event path.now) }
{
    let mut text = Vec::from_slice(alloc, b"[Bootsnap] ")?;
    text.extend_from_slice(word_of(event))?;
    text.push(b' ')?;
    text.extend_from_slice(path.as_slice())?;
    text.push(b'\n')?;
    Ok(text)
}

fn word_of(event: Event) -> &'static [u8]
    ensures { result.now ≡ word_of event }
{
    match event {
        Event::Miss => b"miss",
        Event::Hit => b"hit",
        Event::Stale => b"stale",
        Event::Revalidated => b"revalidated",
    }
}

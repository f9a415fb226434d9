//! Values at the end of a cache file.
ghost use Rattle.std.specs.Prelude.{◌≡◌, ◌≢◌, ◌≤◌, ◌+◌, ℕ, [], length, drop, IfOk, OnOk, MatchResult};
ghost use Rattle.msgpack_codec.specs.declared.value.Value.{Value};
ghost use Rattle.msgpack_codec.specs.Message.{SpellsMessage, Decodes, IsSpellable};

use crate::decoding::decode;
use crate::stop::Unread;
use crate::value::Value;
use bs_outside::{Image, Steps};
use std::alloc::{AllocError, Global};
use std::marker::Model;
use std::sync::ledger::Ledger;

/// A reader of the bytes of an image from a place on. Contracts see the bytes that it has not taken.
#[derive(Drop)]
pub struct Reader {
    image: Image,
    place: u64,
}

impl Model for Reader {
    ghost use Rattle.std.specs.Prelude.{List, ℕ, ◌≤◌, length, drop};

    ghost Value = { List ℕ };

    ghost view = { λ r. drop r.place r.image };

    ghost invariant = { λ r. r.place ≤ length r.image };
}

impl Reader {
    /// A reader of the bytes from this place on, which is at most the image's length.
    pub fn new(image: Image, from: u64) -> Reader
        requires { from ≤ length image }
        ensures { result ≡ drop from image }
    {
        Reader { image, place: from }
    }

    /// The value that all bytes left spell, as `decode` answers it. Each byte is taken once, in one step.
    ///
    /// Where memory runs out, bytes may be left.
    pub fn value<L: Ledger>(&mut self, alloc: Global, steps: &mut Steps<L>) -> Result<Value, Unread>
        ensures answer { Decodes self.old result }
        // What is a spelling is read, unless memory runs out.
        ensures only { (value : Value) → SpellsMessage value self.old → MatchResult result (λ found. found ≡ value) (λ e. e ≡ Unread.NoMemory) }
        // What is read can be written again.
        ensures again { IfOk result (λ value. IsSpellable value) }

        // All bytes are taken, or some where memory runs out, each in one step.
        ensures all { result ≢ Err Unread.NoMemory → self.new ≡ [] }
        ensures left { (count : ℕ) × (self.new ≡ drop count self.old) }
        ensures once { steps.new + length self.new ≡ steps.old + length self.old }
    {
        match take_rest(alloc, &self.image, &mut self.place, steps) {
            Ok(rest) => decode(alloc, rest.as_slice()),
            Err(_) => Err(Unread::NoMemory),
        }
    }
}

/// The bytes of an image from a place on, which becomes the place behind the last one taken.
fn take_rest<L: Ledger>(
    alloc: Global,
    image: &Image,
    place: &mut u64,
    steps: &mut Steps<L>,
) -> Result<Vec<u8>, AllocError>
    requires { place.old ≤ length image.now }
    ensures rest { IfOk result (λ rest. rest.items ≡ drop place.old image.now) }
    ensures end { OnOk result (place.new ≡ length image.now) }
    ensures forward { place.old ≤ place.new }
    ensures within { place.new ≤ length image.now }
    ensures once { steps.new + place.old ≡ steps.old + place.new }
{
    let count = image.len() - *place;
    let mut rest = Vec::with_capacity(alloc, count as usize)?;
    while *place < image.len() {
        let byte = image.at(*place, steps);
        *place += 1;
        rest.push(byte)?;
    }
    Ok(rest)
}

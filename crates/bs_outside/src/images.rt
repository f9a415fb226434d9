//! The bytes of a loaded cache file, taken one at a time.
ghost use Rattle.std.specs.Prelude.{◌≡◌, ◌+◌, ◌<◌, length, slice_index};
ghost use Rattle.bs_outside.specs.Images.{key_in};

use crate::{Bytes, Steps};
use std::marker::Model;
use std::sync::ledger::Ledger;

/// What a load found. Past the key its bytes are reached by `at` alone, which counts each.
#[derive(Drop)]
pub struct Image {
    bytes: Bytes,
}

impl Model for Image {
    ghost use Rattle.std.specs.Prelude.{List, ℕ};

    ghost Value = { List ℕ };

    ghost view = { λ a. a.bytes };
}

impl Image {
    /// An image of these bytes.
    pub fn new(bytes: Bytes) -> Image
        ensures { result ≡ bytes }
    {
        Image { bytes }
    }

    /// How many bytes it has.
    pub fn len(&self) -> u64
        ensures { result ≡ length self.now }
    {
        self.bytes.len() as u64
    }

    /// Its first 64 bytes, or nothing where it has fewer. This takes no byte in the sense of `Steps`.
    pub fn key(&self) -> Option<[u8; 64]>
        ensures { result ≡ key_in self.now }
    {
        self.bytes.as_slice().first_chunk::<64>().copied()
    }

    /// The byte at the place, counted from 0. Each call is one step.
    pub fn at<L: Ledger>(&self, place: u64, steps: &mut Steps<L>) -> u8
        requires { place < length self.now }
        ensures byte { result ≡ slice_index self.now place }
        ensures step { steps.new ≡ steps.old + 1 }
    {
        steps.tick();
        self.bytes.as_slice()[place as usize]
    }
}

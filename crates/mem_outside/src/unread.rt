//! Bytes that were not read yet.
ghost use Rattle.std.specs.Prelude.{◌≡◌, ◌<◌, ◌≤◌, ◌++◌, [], length, IfOk, OnErr};

use bs_outside::Bytes;
use std::alloc::{AllocError, Global};
use std::marker::Model;

/// Bytes, and how many of them were read.
#[derive(Drop, Debug)]
pub struct Unread {
    bytes: Bytes,
    at: usize,
}

impl Model for Unread {
    ghost use Rattle.std.specs.Prelude.{List, ℕ, length, drop, ◌≤◌};

    ghost Value = { List ℕ };

    ghost view = { λ a. drop a.at a.bytes };

    ghost invariant = { λ a. a.at ≤ length a.bytes };
}

impl Unread {
    /// None was read.
    pub fn new(bytes: Bytes) -> Unread
        ensures { result ≡ bytes }
    {
        Unread { bytes, at: 0 }
    }

    /// Takes at most `max` bytes from the front.
    pub fn take(&mut self, alloc: Global, max: usize) -> Result<Bytes, AllocError>
        ensures within { IfOk result (λ bytes. length bytes ≤ max) }
        ensures ok { IfOk result (λ bytes. self.old ≡ bytes ++ self.new) }
        ensures end { IfOk result (λ bytes. 0 < max → bytes ≡ [] → self.new ≡ []) }
        ensures err { OnErr result (self.new ≡ self.old) }
    {
        let (_, rest) = self.bytes.as_slice().split_at(self.at);
        let count = max.min(rest.len());
        let (front, _) = rest.split_at(count);
        let taken = Bytes::new(alloc, front)?;
        self.at += count;
        Ok(taken)
    }
}

//! Temporary files.
ghost use Rattle.std.specs.Prelude.{◌≡◌, ◌++◌, [], OnOk, OnErr};

use bs_outside::Bytes;
use std::alloc::{AllocError, Global};
use std::marker::Model;
use std::mem;

/// The bytes of a temporary file.
#[derive(Drop, Debug)]
pub(crate) struct Draft {
    bytes: Vec<u8>,
}

impl Model for Draft {
    ghost use Rattle.std.specs.Prelude.{List, ℕ};

    ghost Value = { List ℕ };

    ghost view = { λ a. a.bytes.items };
}

impl Draft {
    /// An empty one.
    pub(crate) fn new(alloc: Global) -> Draft
        ensures { result ≡ [] }
    {
        Draft {
            bytes: Vec::new(alloc),
        }
    }

    /// Puts bytes at its end.
    pub(crate) fn append(&mut self, piece: &[u8]) -> Result<(), AllocError>
        ensures ok { OnOk result (self.new ≡ self.old ++ piece.now) }
        ensures err { OnErr result (self.new ≡ self.old) }
    {
        self.bytes.extend_from_slice(piece)
    }

    /// Its bytes, of which it keeps none.
    pub(crate) fn take(&mut self, alloc: Global) -> Bytes
        ensures bytes { result ≡ self.old }
        ensures empty { self.new ≡ [] }
    {
        Bytes::from_vec(mem::replace(&mut self.bytes, Vec::new(alloc)))
    }
}

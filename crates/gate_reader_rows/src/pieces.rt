//! Text that is written piece by piece.
ghost use Rattle.std.specs.Prelude.{◌≡◌, ◌++◌, [], true, IfOk, IsOk};

use std::alloc::{AllocError, Global};
use std::fmt::Display;

/// The pieces so far. A piece for which there is not memory enough is left out, and told of at the end: so what writes many of them goes
/// straight on.
#[derive(Drop)]
pub struct Pieces {
    alloc: Global,
    bytes: Vec<u8>,
    is_whole: bool,
}

impl Pieces {
    /// No piece yet.
    pub fn new(alloc: Global) -> Pieces
        ensures empty { result.bytes.items ≡ [] }
        ensures whole { result.is_whole ≡ true }
    {
        Pieces {
            alloc,
            bytes: Vec::new(alloc),
            is_whole: true,
        }
    }

    /// One piece more, in bytes.
    pub fn put_bytes(&mut self, piece: &[u8])
        ensures put { self.new.is_whole ≡ true → self.new.bytes.items ≡ self.old.bytes.items ++ piece.now }
        ensures lost { self.new.is_whole ≡ true → self.old.is_whole ≡ true }
    {
        if self.bytes.extend_from_slice(piece).is_err() {
            self.is_whole = false;
        }
    }

    /// One piece more.
    pub fn put(&mut self, piece: &str)
        ensures put { self.new.is_whole ≡ true → self.new.bytes.items ≡ self.old.bytes.items ++ piece.now }
        ensures lost { self.new.is_whole ≡ true → self.old.is_whole ≡ true }
    {
        self.put_bytes(piece.as_bytes());
    }

    /// A number in decimal digits.
    pub fn number<N: Display + Drop>(&mut self, number: N)
        ensures lost { self.new.is_whole ≡ true → self.old.is_whole ≡ true }
    {
        match number.to_string(self.alloc) {
            Ok(digits) => self.put(digits.as_str()),
            Err(_) => self.is_whole = false,
        }
    }

    /// All of them.
    ///
    /// # Errors
    ///
    /// Where there was not memory enough for one.
    pub fn whole(self) -> Result<Vec<u8>, AllocError>
        ensures bytes { IfOk result (λ bytes. bytes.items ≡ self.bytes.items) }
        ensures whole { IsOk result → self.is_whole ≡ true }
        ensures lost { self.is_whole ≡ true → IsOk result }
    {
        if !self.is_whole {
            return Err(AllocError);
        }
        Ok(self.bytes)
    }
}

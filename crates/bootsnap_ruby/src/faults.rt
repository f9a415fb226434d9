//! Counts of failed calls.
ghost use Rattle.std.specs.Prelude.{◌≡◌, ◌≤◌, false};
ghost use Rattle.bs_outside.specs.Told.{Rose};

use std::io;
use std::io::ErrorKind;
use std::marker::Model;

/// How many calls of an adapter failed. Contracts see the number.
#[derive(Drop)]
pub struct Faults {
    count: u64,
}

impl Model for Faults {
    ghost use Rattle.std.specs.Prelude.{ℕ};

    ghost Value = { ℕ };

    ghost view = { λ a. a.count };
}

impl Faults {
    /// No call failed yet.
    pub fn new() -> Faults {
        Faults { count: 0 }
    }

    /// Whether a call's error is want of memory. Each other error is counted.
    pub fn is_memory(&mut self, error: &io::Error) -> bool
        ensures counted { self.old ≤ self.new }
        ensures failed { result ≡ false → Rose self.old self.new }
    {
        if error.kind() == ErrorKind::OutOfMemory {
            return true;
        }
        self.count = self.count.saturating_add(1);
        false
    }
}

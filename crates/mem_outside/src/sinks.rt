//! Sinks that keep what they take.
ghost use Rattle.std.specs.Prelude.{◌≡◌, ◌+◌, ◌<◌, ◌≤◌, ◌↔◌, List, ℕ, [], true, length, take, Some, IfOk, OnErr, IsErrOf};
ghost use Rattle.bs_outside.specs.Told.{added, AddsPrefix, Rose};
ghost use Rattle.mem_shelf.specs.Schedule.{called, fails_next, faults_of};

use bs_outside::{Sink, SinkFault};
use mem_shelf::Script;
use std::alloc::Global;
use std::marker::Model;

/// A sink whose calls fail as its script says.
#[derive(Drop, Debug)]
pub struct MemSink {
    taken: Vec<u8>,
    script: Script,
}

impl Model for MemSink {
    ghost use Rattle.std.specs.Prelude.{List, ℕ};
    ghost use Rattle.mem_outside.specs.Takings.{Taking};

    ghost Value = { Taking };

    ghost view = { λ a. record { taken = a.taken.items; schedule = a.script } };
}

impl MemSink {
    /// Nothing is taken yet.
    pub fn new(alloc: Global, fail: Vec<u64>) -> MemSink
        ensures { result ≡ record { taken = []; schedule = record { fail = fail.items; calls = 0 } } }
    {
        MemSink {
            taken: Vec::new(alloc),
            script: Script::new(fail),
        }
    }

    /// The bytes taken so far.
    pub fn bytes(&self) -> &[u8]
        ensures { result.now ≡ self.now.taken }
    {
        &self.taken
    }
}

impl Sink for MemSink {
    ghost taken = { λ s. Some s.taken };

    ghost faults = { λ s. faults_of s.schedule };

    fn put(&mut self, _alloc: Global, piece: &[u8]) -> Result<usize, SinkFault>
        ensures within { IfOk result (λ count. count ≤ length piece.now) }
        ensures some { IfOk result (λ count. 0 < length piece.now → 0 < count) }
        ensures ok { IfOk result (λ count. Some self.new.taken ≡ added (Some self.old.taken) (take count piece.now)) }
        ensures err { OnErr result (AddsPrefix (Some self.old.taken) (Some self.new.taken) piece.now) }
        ensures counted { faults_of self.old.schedule ≤ faults_of self.new.schedule }
        ensures failed { IsErrOf result SinkFault.Failed → Rose (faults_of self.old.schedule) (faults_of self.new.schedule) }
        ensures exact { IsErrOf result SinkFault.Failed ↔ fails_next self.old.schedule ≡ true }
        ensures called { self.new.schedule ≡ called self.old.schedule }
    {
        if self.script.next_fails() {
            return Err(SinkFault::Failed);
        }
        self.taken.extend_from_slice(piece)?;
        Ok(piece.len())
    }
}

/// A sink whose calls do not fail.
#[derive(Drop, Debug)]
pub struct SureSink {
    taken: Vec<u8>,
}

impl Model for SureSink {
    ghost use Rattle.std.specs.Prelude.{List, ℕ};

    ghost Value = { List ℕ };

    ghost view = { λ a. a.taken.items };
}

impl SureSink {
    /// Nothing is taken yet.
    pub fn new(alloc: Global) -> SureSink
        ensures { result ≡ [] }
    {
        SureSink {
            taken: Vec::new(alloc),
        }
    }

    /// The bytes taken so far.
    pub fn bytes(&self) -> &[u8]
        ensures { result.now ≡ self.now }
    {
        &self.taken
    }
}

impl Sink for SureSink {
    ghost taken = { λ s. Some s };

    ghost faults = { λ s. 0 };

    fn put(&mut self, _alloc: Global, piece: &[u8]) -> Result<usize, SinkFault> {
        self.taken.extend_from_slice(piece)?;
        Ok(piece.len())
    }
}

//! Inputs in memory.
ghost use Rattle.std.specs.Prelude.{◌≡◌, ◌<◌, ◌≤◌, ◌↔◌, ◌++◌, [], true, length, IfOk, OnErr, IsErrOf, Some};
ghost use Rattle.bs_outside.specs.Told.{put_before, Rose};
ghost use Rattle.mem_shelf.specs.Schedule.{called, fails_next, faults_of};

use crate::Unread;
use bs_outside::{Bytes, Input, InputFault};
use mem_shelf::Script;
use std::alloc::Global;

/// An input over bytes, whose calls fail as its script says.
#[derive(Drop, Debug)]
pub struct MemInput {
    left: Unread,
    script: Script,
}

impl MemInput {
    /// These bytes are left, and the calls with these numbers, counted from 1, fail.
    pub fn new(bytes: Bytes, fail: Vec<u64>) -> MemInput
        ensures { result ≡ record { left = bytes; script = record { fail = fail.items; calls = 0 } } }
    {
        MemInput {
            left: Unread::new(bytes),
            script: Script::new(fail),
        }
    }
}

impl Input for MemInput {
    ghost left = { λ i. Some i.left };

    ghost faults = { λ i. faults_of i.script };

    fn take(&mut self, alloc: Global, max: usize) -> Result<Bytes, InputFault>
        ensures within { IfOk result (λ bytes. length bytes ≤ max) }
        ensures ok { IfOk result (λ bytes. self.old.left ≡ bytes ++ self.new.left) }
        ensures end { IfOk result (λ bytes. 0 < max → bytes ≡ [] → self.new.left ≡ []) }
        ensures err { OnErr result (self.new.left ≡ self.old.left) }
        ensures counted { faults_of self.old.script ≤ faults_of self.new.script }
        ensures failed { IsErrOf result InputFault.Failed → Rose (faults_of self.old.script) (faults_of self.new.script) }
        ensures exact { IsErrOf result InputFault.Failed ↔ fails_next self.old.script ≡ true }
        ensures called { self.new.script ≡ called self.old.script }
    {
        if self.script.next_fails() {
            return Err(InputFault::Failed);
        }
        Ok(self.left.take(alloc, max)?)
    }
}

/// An input over bytes, whose calls do not fail.
#[derive(Drop, Debug)]
pub struct SureInput {
    left: Unread,
}

impl SureInput {
    /// These bytes are left.
    pub fn new(bytes: Bytes) -> SureInput
        ensures { result ≡ record { left = bytes } }
    {
        SureInput {
            left: Unread::new(bytes),
        }
    }
}

impl Input for SureInput {
    ghost left = { λ i. Some i.left };

    ghost faults = { λ i. 0 };

    fn take(&mut self, alloc: Global, max: usize) -> Result<Bytes, InputFault> {
        Ok(self.left.take(alloc, max)?)
    }
}

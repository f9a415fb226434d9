//! Which calls fail.
ghost use Rattle.std.specs.Prelude.{◌≡◌, ◌+◌, ◌≤◌, true};
ghost use Rattle.mem_shelf.specs.Schedule.{fails_next, called, faults_of};

use std::marker::Model;

/// The numbers of the calls that fail, counted from 1, and how many calls were made.
#[derive(Drop, Debug)]
pub struct Script {
    fail: Vec<u64>,
    calls: u64,
}

impl Model for Script {
    ghost use Rattle.mem_shelf.specs.Schedule.{Schedule};

    ghost Value = { Schedule };

    ghost view = { λ a. record { fail = a.fail.items; calls = a.calls } };
}

impl Script {
    /// No call was made.
    pub fn new(fail: Vec<u64>) -> Script
        ensures { result ≡ record { fail = fail.items; calls = 0 } }
    {
        Script { fail, calls: 0 }
    }

    /// Counts a call, and says whether it fails. Calls past the last number of 64 bits have none, and do not fail.
    pub fn next_fails(&mut self) -> bool
        ensures exact { result ≡ fails_next self.old }
        ensures next { self.new ≡ called self.old }
        ensures same { self.new.fail ≡ self.old.fail }
        ensures kept { faults_of self.old ≤ faults_of self.new }
        ensures rose { result ≡ true → faults_of self.old + 1 ≤ faults_of self.new }
    {
        match self.calls.checked_add(1) {
            Some(number) => {
                self.calls = number;
                self.fail.contains(&number)
            }
            None => false,
        }
    }
}

//! A place in an image, from which bytes are taken one by one.
ghost use Rattle.std.specs.Prelude.{◌≡◌, ◌+◌, ◌-◌, ◌<◌, ◌≤◌, ◌∷◌, length, take, drop};
ghost use Rattle.iseq_dump.specs.Reading.{Gives, byte_at};

use crate::fault::ReadError;
use bs_outside::{Image, Steps};
use std::marker::Model;
use std::sync::ledger::Ledger;

/// The bytes of an image from a place on and before an end. Contracts see it as the list of these bytes.
#[derive(Drop)]
pub struct Cursor<'a> {
    image: &'a Image,
    place: u64,
    end: u64,
}

impl<'a> Model for Cursor<'a> {
    ghost use Rattle.std.specs.Prelude.{List, ℕ, ◌≤◌, length, take, drop};

    ghost Value = { List ℕ };

    ghost view = { λ c. drop c.place (take c.end c.image.now) };

    ghost invariant = { λ c. record { ordered : c.place ≤ c.end; within : c.end ≤ length c.image.now } };
}

impl<'a> Cursor<'a> {
    /// The bytes from `place` on, and before `end`.
    pub fn new(image: &'a Image, place: u64, end: u64) -> Cursor<'a>
        requires ordered { place ≤ end }
        requires within { end ≤ length image.now }
        ensures { result ≡ drop place (take end image.now) }
    {
        Cursor { image, place, end }
    }

    /// How many bytes are left.
    pub fn len(&self) -> u64
        ensures { result ≡ length self.now }
    {
        self.end - self.place
    }

    /// Takes the first byte.
    pub fn take<L: Ledger>(&mut self, steps: &mut Steps<L>) -> u8
        requires { 0 < length self.old }
        ensures byte { self.old ≡ result ∷ self.new }
        ensures step { steps.new ≡ steps.old + 1 }
    {
        let byte = self.image.at(self.place, steps);
        self.place += 1;
        byte
    }

    /// The next bytes alone. The cursor goes on behind them.
    pub fn split(&mut self, count: u64) -> Cursor<'a>
        requires { count ≤ length self.old }
        ensures front { result ≡ take count self.old }
        ensures rest { self.new ≡ drop count self.old }
    {
        let place = self.place;
        self.place += count;
        Cursor {
            image: self.image,
            place,
            end: self.place,
        }
    }

    /// The first byte, if there is one.
    pub fn byte<L: Ledger>(&mut self, steps: &mut Steps<L>) -> Result<u8, ReadError>
        ensures value { Gives (λ b. b) result self.new (byte_at self.old) }
        ensures taken { steps.new + length self.new ≤ steps.old + length self.old }
    {
        if self.len() == 0 {
            return Err(ReadError::NotSpelled);
        }
        Ok(self.take(steps))
    }
}

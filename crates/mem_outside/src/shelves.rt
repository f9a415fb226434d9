//! A shelf that always fails.
ghost use Rattle.std.specs.Prelude.{◌≡◌, ◌⊎◌, ◌≤◌, ◌<◌, ◌++◌, ◌∷◌, [], false, IsTrue, length, take, IfOk, OnOk, OnErr, IsErrOf};
ghost use Rattle.bs_outside.specs.Cache.{last_of, now_of};
ghost use Rattle.bs_outside.specs.History.{Since, IsLast, KeepsTemps, KeepsOtherTemps, HasCause, loaded_by};
ghost use Rattle.bs_outside.specs.Told.{Rose};
ghost use Rattle.mem_outside.specs.Nothing.{nothing_told};

use bs_outside::{CacheName, Image, Shelf, ShelfFault, Temp};
use std::alloc::Global;

/// A shelf whose every call fails. It tells nothing.
#[derive(Drop, Debug)]
pub struct NoShelf {
    faults: u64,
    begun: usize,
}

impl NoShelf {
    /// No call was made.
    pub fn new() -> NoShelf
        ensures { result ≡ record { faults = 0; begun = 0 } }
    {
        NoShelf {
            faults: 0,
            begun: 0,
        }
    }

    fn fail(&mut self) -> ShelfFault
        ensures fault { result ≡ ShelfFault.Failed }
        ensures begun { self.new.begun ≡ self.old.begun }
        ensures rose { Rose self.old.faults self.new.faults }
        ensures counted { self.old.faults ≤ self.new.faults }
    {
        self.faults = self.faults.saturating_add(1);
        ShelfFault::Failed
    }
}

impl Shelf for NoShelf {
    ghost tells = { false };

    ghost history = { λ _. nothing_told };

    ghost faults = { λ shelf. shelf.faults };

    ghost begun = { λ shelf. shelf.begun };

    fn load(&mut self, _alloc: Global, name: &CacheName) -> Result<Option<Image>, ShelfFault>
        ensures since { IsTrue false → Since nothing_told nothing_told [] (loaded_by name.now result) }
        ensures bytes { IsTrue false → IfOk result (λ image. image ≡ now_of (last_of nothing_told.start) nothing_told.past name.now) }
        ensures temps { IsTrue false → KeepsTemps self.old.begun nothing_told nothing_told }
        ensures begun { self.new.begun ≡ self.old.begun }
        ensures cause { HasCause self.old.faults self.new.faults result }
        ensures fails { IsErrOf result ShelfFault.Failed }
    {
        let fault = self.fail();
        Err(fault)
    }

    fn begin(&mut self, _alloc: Global, _name: &CacheName) -> Result<Temp, ShelfFault>
        ensures since { IsTrue false → Since nothing_told nothing_told [] [] }
        ensures empty { IsTrue false → IfOk result (λ temp. nothing_told.temps temp ≡ []) }
        ensures temps { IsTrue false → KeepsTemps self.old.begun nothing_told nothing_told }
        ensures fresh { IfOk result (λ temp. (self.old.begun ≤ temp) × (temp < self.new.begun)) }
        ensures begun { self.old.begun ≤ self.new.begun }
        ensures cause { HasCause self.old.faults self.new.faults result }
        ensures fails { IsErrOf result ShelfFault.Failed }
    {
        Err(self.fail())
    }

    fn append(&mut self, _alloc: Global, temp: &Temp, piece: &[u8]) -> Result<usize, ShelfFault>
        requires { temp.now < self.old.begun }
        ensures since { IsTrue false → Since nothing_told nothing_told [] [] }
        ensures added { IsTrue false → IfOk result (λ n. nothing_told.temps temp.now ≡ nothing_told.temps temp.now ++ take n piece.now) }
        ensures temps { IsTrue false → KeepsOtherTemps temp.now nothing_told nothing_told }
        ensures within { IfOk result (λ n. n ≤ length piece.now) }
        ensures some { IfOk result (λ n. 0 < length piece.now → 0 < n) }
        ensures begun { self.new.begun ≡ self.old.begun }
        ensures cause { HasCause self.old.faults self.new.faults result }
        ensures fails { IsErrOf result ShelfFault.Failed }
    {
        Err(self.fail())
    }

    fn rename(&mut self, _alloc: Global, temp: Temp, name: &CacheName) -> Result<(), ShelfFault>
        requires { temp < self.old.begun }
        ensures ok { IsTrue false → OnOk result (
            Since nothing_told nothing_told ((name.now, nothing_told.temps temp) ∷ []) []
            × IsLast (name.now, nothing_told.temps temp) nothing_told.past) }
        ensures err { IsTrue false → OnErr result (
            Since nothing_told nothing_told [] []
            ⊎ (Since nothing_told nothing_told ((name.now, nothing_told.temps temp) ∷ []) []
            × IsLast (name.now, nothing_told.temps temp) nothing_told.past)) }
        ensures temps { IsTrue false → KeepsOtherTemps temp nothing_told nothing_told }
        ensures begun { self.new.begun ≡ self.old.begun }
        ensures cause { HasCause self.old.faults self.new.faults result }
        ensures fails { IsErrOf result ShelfFault.Failed }
    {
        Err(self.fail())
    }
}

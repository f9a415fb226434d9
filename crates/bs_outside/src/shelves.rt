//! A folder of cache files that is changed by rename alone, by this object and by others.
ghost use Rattle.std.specs.Prelude.{◌≡◌, ◌⊎◌, ◌≤◌, ◌<◌, ◌++◌, ◌∷◌, [], ℕ, Bool, IsTrue, length, take, IfOk, OnOk, OnErr};
ghost use Rattle.bs_outside.specs.Cache.{last_of, now_of};
ghost use Rattle.bs_outside.specs.History.{History, Since, IsLast, KeepsTemps, KeepsOtherTemps, HasCause, loaded_by};

use crate::{CacheName, Image, ShelfFault, Temp};
use std::alloc::Global;

/// A folder of cache files. What others rename during a call joins the past before the call acts.
pub trait Shelf {
    /// Whether it tells what it holds.
    ghost tells: { Bool };

    /// What it tells.
    ghost history: { Self → History };

    /// How many calls failed.
    ghost faults: { Self → ℕ };

    /// How many temporaries it has begun.
    ghost begun: { Self → ℕ };

    /// The bytes that stand under the name now, or nothing where none do.
    fn load(&mut self, alloc: Global, name: &CacheName) -> Result<Option<Image>, ShelfFault>
        ensures since { IsTrue tells → Since (history self.old) (history self.new) [] (loaded_by name.now result) }
        ensures bytes { IsTrue tells → IfOk result (λ image. image ≡ now_of (last_of (history self.new).start) (history self.new).past name.now) }
        ensures temps { IsTrue tells → KeepsTemps (begun self.old) (history self.old) (history self.new) }
        ensures begun { begun self.new ≡ begun self.old }
        ensures cause { HasCause (faults self.old) (faults self.new) result };

    /// An empty temporary.
    fn begin(&mut self, alloc: Global, name: &CacheName) -> Result<Temp, ShelfFault>
        ensures since { IsTrue tells → Since (history self.old) (history self.new) [] [] }
        ensures empty { IsTrue tells → IfOk result (λ temp. (history self.new).temps temp ≡ []) }
        ensures temps { IsTrue tells → KeepsTemps (begun self.old) (history self.old) (history self.new) }
        ensures fresh { IfOk result (λ temp. (begun self.old ≤ temp) × (temp < begun self.new)) }
        ensures begun { begun self.old ≤ begun self.new }
        ensures cause { HasCause (faults self.old) (faults self.new) result };

    /// Puts the first bytes of the piece at the temporary's end, at least one of a piece that is not empty, and answers how many.
    /// After an error the temporary's bytes are unknown.
    fn append(&mut self, alloc: Global, temp: &Temp, piece: &[u8]) -> Result<usize, ShelfFault>
        requires { temp.now < begun self.old }
        ensures since { IsTrue tells → Since (history self.old) (history self.new) [] [] }
        ensures added { IsTrue tells → IfOk result (λ n. (history self.new).temps temp.now ≡ (history self.old).temps temp.now ++ take n piece.now) }
        ensures temps { IsTrue tells → KeepsOtherTemps temp.now (history self.old) (history self.new) }
        ensures within { IfOk result (λ n. n ≤ length piece.now) }
        ensures some { IfOk result (λ n. 0 < length piece.now → 0 < n) }
        ensures begun { begun self.new ≡ begun self.old }
        ensures cause { HasCause (faults self.old) (faults self.new) result };

    /// Gives the name the temporary's bytes. After an error it did so or not.
    fn rename(&mut self, alloc: Global, temp: Temp, name: &CacheName) -> Result<(), ShelfFault>
        requires { temp < begun self.old }
        ensures ok { IsTrue tells → OnOk result (
            Since (history self.old) (history self.new) ((name.now, (history self.old).temps temp) ∷ []) []
            × IsLast (name.now, (history self.old).temps temp) (history self.new).past) }
        ensures err { IsTrue tells → OnErr result (
            Since (history self.old) (history self.new) [] []
            ⊎ (Since (history self.old) (history self.new) ((name.now, (history self.old).temps temp) ∷ []) []
            × IsLast (name.now, (history self.old).temps temp) (history self.new).past)) }
        ensures temps { IsTrue tells → KeepsOtherTemps temp (history self.old) (history self.new) }
        ensures begun { begun self.new ≡ begun self.old }
        ensures cause { HasCause (faults self.old) (faults self.new) result };
}

//! Shelves in memory.
ghost use Rattle.std.specs.Prelude.{◌≡◌, ◌⊎◌, ◌<◌, ◌≤◌, ◌++◌, ◌∷◌, [], true, length, take, min, get_or, IfOk, OnOk, OnErr, IsErrOf};
ghost use Rattle.bs_outside.specs.Cache.{last_of, now_of};
ghost use Rattle.bs_outside.specs.History.{Since, IsLast, KeepsTemps, KeepsOtherTemps, HasCause, loaded_of, loaded_by};
ghost use Rattle.bs_outside.specs.declared.names.CacheName.{CacheName};
ghost use Rattle.bs_outside.specs.declared.names.Loaded.TheVariants as answer;
ghost use Rattle.mem_shelf.specs.Schedule.{fails_next, called, faults_of, IsScripted};
ghost use Rattle.mem_shelf.specs.Keeping.{history_of, arrived, loaded, begun, appended, renamed, NamesOnce};

use crate::Script;
use crate::folder::Folder;
use bs_outside::{Bytes, CacheName, Image, Loaded, NoMemory, Shelf, ShelfFault, Temp};
use std::alloc::Global;
use std::marker::Model;

/// A shelf whose calls fail as its script says.
#[derive(Drop, Debug)]
pub struct MemShelf {
    folder: Folder,
    script: Script,
}

impl Model for MemShelf {
    ghost use Rattle.mem_shelf.specs.Keeping.{Scripted};

    ghost Value = { Scripted };

    ghost view = { λ a. record { kept = a.folder; script = a.script } };
}

impl MemShelf {
    /// No call was made. Of several files of one name in `start` the last counts. What a guest renames comes just before the call with
    /// the guest's number, counted from 1; `fail` has the numbers of the calls that fail, and one append takes at most `bite` bytes.
    pub fn new(
        alloc: Global,
        start: Vec<(CacheName, Bytes)>,
        guests: Vec<(u64, CacheName, Bytes)>,
        fail: Vec<u64>,
        bite: usize,
    ) -> MemShelf
        requires { 0 < bite }
        ensures { result ≡ record { kept = record { start = start.items; guests = guests.items; bite = bite; calls = 0; past = []; own = []; loads = []; temps = [] }; script = record { fail = fail.items; calls = 0 } } }
    {
        MemShelf {
            folder: Folder::new(alloc, start, guests, bite),
            script: Script::new(fail),
        }
    }

    /// What was renamed since the opening, by anybody.
    pub fn past(&self) -> &[(CacheName, Bytes)]
        ensures { result.now ≡ (history_of self.now.kept).past }
    {
        self.folder.past()
    }

    /// The places in `past` of this object's renames.
    pub fn own(&self) -> &[usize]
        ensures { result.now ≡ (history_of self.now.kept).own }
    {
        self.folder.own()
    }

    /// Each load so far, with its answer.
    pub fn loads(&self) -> &[(CacheName, Loaded)]
        ensures { result.now ≡ (history_of self.now.kept).loads }
    {
        self.folder.loads()
    }

    /// The cache that stands now, each name once.
    pub fn left(&self, alloc: Global) -> Result<Vec<(CacheName, Bytes)>, NoMemory>
        ensures stands { IfOk result (λ files. (name : CacheName) → last_of files.items name ≡ now_of (last_of self.now.kept.start) self.now.kept.past name) }
        ensures once { IfOk result (λ files. NamesOnce files.items) }
    {
        self.folder.left(alloc)
    }
}

impl Shelf for MemShelf {
    ghost tells = { true };

    ghost history = { λ m. history_of m.kept };

    ghost faults = { λ m. faults_of m.script };

    ghost begun = { λ m. length m.kept.temps };

    fn load(&mut self, alloc: Global, name: &CacheName) -> Result<Option<Image>, ShelfFault>
        ensures since { Since (history_of self.old.kept) (history_of self.new.kept) [] (loaded_by name.now result) }
        ensures bytes { IfOk result (λ image. image ≡ now_of (last_of self.new.kept.start) self.new.kept.past name.now) }
        ensures temps { KeepsTemps (length self.old.kept.temps) (history_of self.old.kept) (history_of self.new.kept) }
        ensures begun { length self.new.kept.temps ≡ length self.old.kept.temps }
        ensures cause { HasCause (faults_of self.old.script) (faults_of self.new.script) result }
        ensures scripted { IsScripted (fails_next self.old.script) result }
        ensures script { self.new.script ≡ called self.old.script }
        ensures acts { IfOk result (λ image. self.new.kept ≡ loaded self.old.kept name.now (loaded_of image)) }
        ensures fails { IsErrOf result ShelfFault.Failed → self.new.kept ≡ loaded self.old.kept name.now answer.Failed }
    {
        if self.script.next_fails() {
            self.folder.load_failing(alloc, name)?;
            return Err(ShelfFault::Failed);
        }
        Ok(self.folder.load(alloc, name)?)
    }

    fn begin(&mut self, alloc: Global, _name: &CacheName) -> Result<Temp, ShelfFault>
        ensures since { Since (history_of self.old.kept) (history_of self.new.kept) [] [] }
        ensures empty { IfOk result (λ temp. (history_of self.new.kept).temps temp ≡ []) }
        ensures temps { KeepsTemps (length self.old.kept.temps) (history_of self.old.kept) (history_of self.new.kept) }
        ensures fresh { IfOk result (λ temp. (length self.old.kept.temps ≤ temp) × (temp < length self.new.kept.temps)) }
        ensures begun { length self.old.kept.temps ≤ length self.new.kept.temps }
        ensures cause { HasCause (faults_of self.old.script) (faults_of self.new.script) result }
        ensures scripted { IsScripted (fails_next self.old.script) result }
        ensures script { self.new.script ≡ called self.old.script }
        ensures acts { OnOk result (self.new.kept ≡ begun self.old.kept) }
        ensures fails { IsErrOf result ShelfFault.Failed → self.new.kept ≡ arrived self.old.kept }
    {
        if self.script.next_fails() {
            self.folder.arrive(alloc)?;
            return Err(ShelfFault::Failed);
        }
        Ok(self.folder.begin(alloc)?)
    }

    fn append(&mut self, alloc: Global, temp: &Temp, piece: &[u8]) -> Result<usize, ShelfFault>
        requires { temp.now < length self.old.kept.temps }
        ensures since { Since (history_of self.old.kept) (history_of self.new.kept) [] [] }
        ensures added { IfOk result (λ n. (history_of self.new.kept).temps temp.now ≡ (history_of self.old.kept).temps temp.now ++ take n piece.now) }
        ensures temps { KeepsOtherTemps temp.now (history_of self.old.kept) (history_of self.new.kept) }
        ensures within { IfOk result (λ n. n ≤ length piece.now) }
        ensures some { IfOk result (λ n. 0 < length piece.now → 0 < n) }
        ensures begun { length self.new.kept.temps ≡ length self.old.kept.temps }
        ensures cause { HasCause (faults_of self.old.script) (faults_of self.new.script) result }
        ensures scripted { IsScripted (fails_next self.old.script) result }
        ensures script { self.new.script ≡ called self.old.script }
        ensures bite { IfOk result (λ n. n ≡ min self.old.kept.bite (length piece.now)) }
        ensures acts { IfOk result (λ n. self.new.kept ≡ appended self.old.kept temp.now (take n piece.now)) }
        ensures fails { IsErrOf result ShelfFault.Failed → self.new.kept ≡ arrived self.old.kept }
    {
        if self.script.next_fails() {
            self.folder.arrive(alloc)?;
            return Err(ShelfFault::Failed);
        }
        Ok(self.folder.append(alloc, temp, piece)?)
    }

    fn rename(&mut self, alloc: Global, temp: Temp, name: &CacheName) -> Result<(), ShelfFault>
        requires { temp < length self.old.kept.temps }
        ensures ok { OnOk result (
            Since (history_of self.old.kept) (history_of self.new.kept) ((name.now, (history_of self.old.kept).temps temp) ∷ []) []
            × IsLast (name.now, (history_of self.old.kept).temps temp) (history_of self.new.kept).past) }
        ensures err { OnErr result (Since (history_of self.old.kept) (history_of self.new.kept) [] []) }
        ensures temps { KeepsOtherTemps temp (history_of self.old.kept) (history_of self.new.kept) }
        ensures begun { length self.new.kept.temps ≡ length self.old.kept.temps }
        ensures cause { HasCause (faults_of self.old.script) (faults_of self.new.script) result }
        ensures scripted { IsScripted (fails_next self.old.script) result }
        ensures script { self.new.script ≡ called self.old.script }
        ensures acts { OnOk result (self.new.kept ≡ renamed self.old.kept temp name.now) }
        ensures fails { IsErrOf result ShelfFault.Failed → self.new.kept ≡ arrived self.old.kept }
    {
        if self.script.next_fails() {
            self.folder.arrive(alloc)?;
            return Err(ShelfFault::Failed);
        }
        Ok(self.folder.rename(alloc, temp, name)?)
    }
}

/// A shelf whose calls do not fail.
#[derive(Drop, Debug)]
pub struct SureShelf {
    folder: Folder,
}

impl Model for SureShelf {
    ghost use Rattle.mem_shelf.specs.Keeping.{Keeping};

    ghost Value = { Keeping };

    ghost view = { λ a. a.folder };
}

impl SureShelf {
    /// No call was made. Of several files of one name in `start` the last counts. What a guest renames comes just before the call with
    /// the guest's number, counted from 1, and one append takes at most `bite` bytes.
    pub fn new(
        alloc: Global,
        start: Vec<(CacheName, Bytes)>,
        guests: Vec<(u64, CacheName, Bytes)>,
        bite: usize,
    ) -> SureShelf
        requires { 0 < bite }
        ensures { result ≡ record { start = start.items; guests = guests.items; bite = bite; calls = 0; past = []; own = []; loads = []; temps = [] } }
    {
        SureShelf {
            folder: Folder::new(alloc, start, guests, bite),
        }
    }

    /// What was renamed since the opening, by anybody.
    pub fn past(&self) -> &[(CacheName, Bytes)]
        ensures { result.now ≡ (history_of self.now).past }
    {
        self.folder.past()
    }

    /// The places in `past` of this object's renames.
    pub fn own(&self) -> &[usize]
        ensures { result.now ≡ (history_of self.now).own }
    {
        self.folder.own()
    }

    /// Each load so far, with its answer.
    pub fn loads(&self) -> &[(CacheName, Loaded)]
        ensures { result.now ≡ (history_of self.now).loads }
    {
        self.folder.loads()
    }

    /// The cache that stands now, each name once.
    pub fn left(&self, alloc: Global) -> Result<Vec<(CacheName, Bytes)>, NoMemory>
        ensures stands { IfOk result (λ files. (name : CacheName) → last_of files.items name ≡ now_of (last_of self.now.start) self.now.past name) }
        ensures once { IfOk result (λ files. NamesOnce files.items) }
    {
        self.folder.left(alloc)
    }
}

impl Shelf for SureShelf {
    ghost tells = { true };

    ghost history = { history_of };

    ghost faults = { λ m. 0 };

    ghost begun = { λ m. length m.temps };

    fn load(&mut self, alloc: Global, name: &CacheName) -> Result<Option<Image>, ShelfFault>
        ensures since { Since (history_of self.old) (history_of self.new) [] (loaded_by name.now result) }
        ensures bytes { IfOk result (λ image. image ≡ now_of (last_of self.new.start) self.new.past name.now) }
        ensures temps { KeepsTemps (length self.old.temps) (history_of self.old) (history_of self.new) }
        ensures begun { length self.new.temps ≡ length self.old.temps }
        ensures cause { HasCause 0 0 result }
        ensures sure { IsErrOf result ShelfFault.Failed → ⊥ }
        ensures acts { IfOk result (λ image. self.new ≡ loaded self.old name.now (loaded_of image)) }
    {
        Ok(self.folder.load(alloc, name)?)
    }

    fn begin(&mut self, alloc: Global, _name: &CacheName) -> Result<Temp, ShelfFault>
        ensures since { Since (history_of self.old) (history_of self.new) [] [] }
        ensures empty { IfOk result (λ temp. (history_of self.new).temps temp ≡ []) }
        ensures temps { KeepsTemps (length self.old.temps) (history_of self.old) (history_of self.new) }
        ensures fresh { IfOk result (λ temp. (length self.old.temps ≤ temp) × (temp < length self.new.temps)) }
        ensures begun { length self.old.temps ≤ length self.new.temps }
        ensures cause { HasCause 0 0 result }
        ensures sure { IsErrOf result ShelfFault.Failed → ⊥ }
        ensures acts { OnOk result (self.new ≡ begun self.old) }
    {
        Ok(self.folder.begin(alloc)?)
    }

    fn append(&mut self, alloc: Global, temp: &Temp, piece: &[u8]) -> Result<usize, ShelfFault>
        requires { temp.now < length self.old.temps }
        ensures since { Since (history_of self.old) (history_of self.new) [] [] }
        ensures added { IfOk result (λ n. (history_of self.new).temps temp.now ≡ (history_of self.old).temps temp.now ++ take n piece.now) }
        ensures temps { KeepsOtherTemps temp.now (history_of self.old) (history_of self.new) }
        ensures within { IfOk result (λ n. n ≤ length piece.now) }
        ensures some { IfOk result (λ n. 0 < length piece.now → 0 < n) }
        ensures begun { length self.new.temps ≡ length self.old.temps }
        ensures cause { HasCause 0 0 result }
        ensures sure { IsErrOf result ShelfFault.Failed → ⊥ }
        ensures bite { IfOk result (λ n. n ≡ min self.old.bite (length piece.now)) }
        ensures acts { IfOk result (λ n. self.new ≡ appended self.old temp.now (take n piece.now)) }
    {
        Ok(self.folder.append(alloc, temp, piece)?)
    }

    fn rename(&mut self, alloc: Global, temp: Temp, name: &CacheName) -> Result<(), ShelfFault>
        requires { temp < length self.old.temps }
        ensures ok { OnOk result (
            Since (history_of self.old) (history_of self.new) ((name.now, (history_of self.old).temps temp) ∷ []) []
            × IsLast (name.now, (history_of self.old).temps temp) (history_of self.new).past) }
        ensures err { OnErr result (Since (history_of self.old) (history_of self.new) [] []) }
        ensures temps { KeepsOtherTemps temp (history_of self.old) (history_of self.new) }
        ensures begun { length self.new.temps ≡ length self.old.temps }
        ensures cause { HasCause 0 0 result }
        ensures sure { IsErrOf result ShelfFault.Failed → ⊥ }
        ensures acts { OnOk result (self.new ≡ renamed self.old temp name.now) }
    {
        Ok(self.folder.rename(alloc, temp, name)?)
    }
}

//! What a shelf in memory keeps, and what its calls change.
ghost use Rattle.std.specs.Prelude.{◌≡◌, ◌<◌, ◌++◌, ◌∷◌, [], ℕ, List, length, take, min, set, IfOk, OnOk, OnErr};
ghost use Rattle.bs_outside.specs.Cache.{last_of, now_of};
ghost use Rattle.bs_outside.specs.History.{loaded_of};
ghost use Rattle.bs_outside.specs.declared.names.Loaded.TheVariants as answer;
ghost use Rattle.mem_shelf.specs.Keeping.{arrived, ArrivesPartly, RenamesPartly, loaded, begun, appended, renamed, NamesOnce};
ghost use Rattle.bs_outside.specs.declared.names.CacheName.{CacheName};

use crate::drafts::Draft;
use crate::lists::{CacheFile, Guest, join, put_last, put_latest, stands};
use bs_outside::{Bytes, CacheName, Image, Loaded, Temp};
use std::alloc::{AllocError, Global};
use std::marker::Model;

/// Cache files in memory, and others' renames by the numbers of the calls before which they come.
#[derive(Drop, Debug)]
pub(crate) struct Folder {
    start: Vec<CacheFile>,
    guests: Vec<Guest>,
    bite: usize,
    calls: u64,
    past: Vec<CacheFile>,
    own: Vec<usize>,
    loads: Vec<(CacheName, Loaded)>,
    temps: Vec<Draft>,
}

impl Model for Folder {
    ghost use Rattle.std.specs.Prelude.{◌<◌};
    ghost use Rattle.mem_shelf.specs.Keeping.{Keeping};

    ghost Value = { Keeping };

    ghost view = { λ a. record { start = a.start.items; guests = a.guests.items; bite = a.bite; calls = a.calls; past = a.past.items; own = a.own.items; loads = a.loads.items; temps = a.temps.items } };

    ghost invariant = { λ a. 0 < a.bite };
}

impl Folder {
    /// No call was made.
    pub(crate) fn new(
        alloc: Global,
        start: Vec<CacheFile>,
        guests: Vec<Guest>,
        bite: usize,
    ) -> Folder
        requires { 0 < bite }
        ensures { result ≡ record { start = start.items; guests = guests.items; bite = bite; calls = 0; past = []; own = []; loads = []; temps = [] } }
    {
        Folder {
            start,
            guests,
            bite,
            calls: 0,
            past: Vec::new(alloc),
            own: Vec::new(alloc),
            loads: Vec::new(alloc),
            temps: Vec::new(alloc),
        }
    }

    /// A call begins.
    pub(crate) fn arrive(&mut self, alloc: Global) -> Result<(), AllocError>
        ensures ok { OnOk result (self.new ≡ arrived self.old) }
        ensures err { OnErr result (ArrivesPartly self.old self.new) }
    {
        match self.calls.checked_add(1) {
            Some(number) => {
                self.calls = number;
                join(alloc, &mut self.past, &self.guests, number)
            }
            None => Ok(()),
        }
    }

    // An answer joins the list of loads.
    fn note(&mut self, name: &CacheName, answer: Loaded) -> Result<(), AllocError>
        ensures ok { OnOk result (self.new ≡ record self.old { loads = self.old.loads ++ (name.now, answer) ∷ [] }) }
        ensures err { OnErr result (self.new ≡ self.old) }
    {
        self.loads.push((*name, answer))?;
        Ok(())
    }

    /// A load that fails.
    pub(crate) fn load_failing(&mut self, alloc: Global, name: &CacheName) -> Result<(), AllocError>
        ensures ok { OnOk result (self.new ≡ loaded self.old name.now answer.Failed) }
        ensures err { OnErr result (ArrivesPartly self.old self.new) }
    {
        self.arrive(alloc)?;
        self.note(name, Loaded::Failed)
    }

    // A copy of the bytes that stand under a name.
    fn image(&self, alloc: Global, name: &CacheName) -> Result<Option<Bytes>, AllocError>
        ensures { IfOk result (λ found. found ≡ now_of (last_of self.now.start) self.now.past name.now) }
    {
        match stands(&self.start, &self.past, name) {
            Some(bytes) => Ok(Some(Bytes::new(alloc, bytes)?)),
            None => Ok(None),
        }
    }

    /// The bytes that stand under a name.
    pub(crate) fn load(
        &mut self,
        alloc: Global,
        name: &CacheName,
    ) -> Result<Option<Image>, AllocError>
        ensures image { IfOk result (λ image. image ≡ now_of (last_of self.old.start) (arrived self.old).past name.now) }
        ensures ok { IfOk result (λ image. self.new ≡ loaded self.old name.now (loaded_of image)) }
        ensures err { OnErr result (ArrivesPartly self.old self.new) }
    {
        self.arrive(alloc)?;
        match self.image(alloc, name)? {
            Some(bytes) => {
                let copy = Bytes::new(alloc, bytes.as_slice())?;
                self.note(name, Loaded::Found(copy))?;
                Ok(Some(Image::new(bytes)))
            }
            None => {
                self.note(name, Loaded::Nothing)?;
                Ok(None)
            }
        }
    }

    /// An empty temporary.
    pub(crate) fn begin(&mut self, alloc: Global) -> Result<Temp, AllocError>
        ensures ok { IfOk result (λ temp. (temp ≡ length self.old.temps) × (self.new ≡ begun self.old)) }
        ensures err { OnErr result (ArrivesPartly self.old self.new) }
    {
        self.arrive(alloc)?;
        let number = self.temps.len();
        self.temps.push(Draft::new(alloc))?;
        Ok(Temp::new(number))
    }

    /// Puts the first bytes of the piece at the temporary's end.
    pub(crate) fn append(
        &mut self,
        alloc: Global,
        temp: &Temp,
        piece: &[u8],
    ) -> Result<usize, AllocError>
        requires { temp.now < length self.old.temps }
        ensures ok { IfOk result (λ n. (n ≡ min self.old.bite (length piece.now)) × (self.new ≡ appended self.old temp.now (take n piece.now))) }
        ensures some { IfOk result (λ n. 0 < length piece.now → 0 < n) }
        ensures err { OnErr result (ArrivesPartly self.old self.new) }
    {
        self.arrive(alloc)?;
        let taken = self.bite.min(piece.len());
        let draft = &mut self.temps[temp.number()];
        draft.append(&piece[..taken])?;
        Ok(taken)
    }

    /// The temporary's bytes join the past, last of all.
    pub(crate) fn rename(
        &mut self,
        alloc: Global,
        temp: Temp,
        name: &CacheName,
    ) -> Result<(), AllocError>
        requires { temp < length self.old.temps }
        ensures ok { OnOk result (self.new ≡ renamed self.old temp name.now) }
        ensures err { OnErr result (RenamesPartly temp self.old self.new) }
    {
        self.arrive(alloc)?;
        let draft = &mut self.temps[temp.number()];
        let bytes = draft.take(alloc);
        put_last(&mut self.past, &mut self.own, (*name, bytes))
    }

    /// The files at the start and those renamed since that are the last of their names.
    pub(crate) fn left(&self, alloc: Global) -> Result<Vec<CacheFile>, AllocError>
        ensures stands { IfOk result (λ files. (name : CacheName) → last_of files.items name ≡ now_of (last_of self.now.start) self.now.past name) }
        ensures once { IfOk result (λ files. NamesOnce files.items) }
    {
        let mut files = Vec::new(alloc);
        put_latest(alloc, &self.start, &self.past, &mut files)?;
        put_latest(alloc, &self.past, &[], &mut files)?;
        Ok(files)
    }

    pub(crate) fn past(&self) -> &[CacheFile]
        ensures { result.now ≡ self.now.past }
    {
        &self.past
    }

    pub(crate) fn own(&self) -> &[usize]
        ensures { result.now ≡ self.now.own }
    {
        &self.own
    }

    pub(crate) fn loads(&self) -> &[(CacheName, Loaded)]
        ensures { result.now ≡ self.now.loads }
    {
        &self.loads
    }
}

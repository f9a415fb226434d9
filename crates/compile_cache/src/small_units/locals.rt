//! Locals of small files.
ghost use Rattle.std.specs.Prelude.{◌≡◌, ◌∷◌, [], IfOk};
ghost use Rattle.cache_meaning.specs.SmallUnit.{locals_behind, with_name, slot_of};

use bs_outside::{NoMemory, Text, TextMap, Texts};
use small_form::Line;
use std::alloc::Global;
use std::marker::Model;

/// Locals by their slots, with an index from their names. Contracts see the list of names.
#[derive(Drop)]
pub struct Locals {
    names: Texts,
    slots: TextMap<u64>,
}

impl Model for Locals {
    ghost use Rattle.std.specs.Prelude.{List, ℕ};
    ghost use Rattle.compile_cache.specs.SmallSlots.{AreSlots};

    ghost Value = { List (List ℕ) };

    ghost view = { λ a. a.names };

    ghost invariant = { λ a. AreSlots a.names a.slots };
}

impl Locals {
    /// No locals.
    fn new(alloc: Global) -> Locals
        ensures { result ≡ [] }
    {
        Locals {
            names: Texts::new(alloc),
            slots: TextMap::new(alloc),
        }
    }

    /// A local of this name gets the next slot, unless it has one.
    fn with_name(self, alloc: Global, name: &Text) -> Result<Locals, NoMemory>
        ensures { IfOk result (λ locals. locals ≡ with_name self name.now) }
    {
        if self.slots.get(name).is_some() {
            return Ok(self);
        }
        let Locals {
            mut names,
            mut slots,
        } = self;
        slots.insert(name.copy(alloc)?, names.len() as u64)?;
        names.push(name.copy(alloc)?)?;
        Ok(Locals { names, slots })
    }

    /// The slot of the name.
    pub fn slot(&self, name: &Text) -> u64
        ensures { result ≡ slot_of self.now name.now }
    {
        match self.slots.get(name) {
            Some(slot) => *slot,
            None => 0,
        }
    }

    /// The names, by their slots.
    pub fn into_names(self) -> Texts
        ensures { result ≡ self }
    {
        let Locals { names, .. } = self;
        names
    }
}

/// The locals that the lines assign, in the order in which they first appear.
pub fn locals_of(alloc: Global, lines: &[Line]) -> Result<Locals, NoMemory>
    ensures { IfOk result (λ locals. locals ≡ locals_behind [] lines.now) }
{
    let mut locals = Locals::new(alloc);
    for line in lines {
        locals = behind(alloc, locals, line)?;
    }
    Ok(locals)
}

/// The locals behind a line more.
fn behind(alloc: Global, locals: Locals, line: &Line) -> Result<Locals, NoMemory>
    ensures { IfOk result (λ now. now ≡ locals_behind locals (line.now ∷ [])) }
{
    match line {
        Line::Assign(name, _) => locals.with_name(alloc, name),
        Line::Empty => Ok(locals),
        Line::PutsSum(_) => Ok(locals),
        Line::PutsText(_) => Ok(locals),
    }
}

//! Environments: the locals of the bodies that run.
ghost use Rattle.std.specs.Prelude.{◌≡◌, ◌++◌, ◌∷◌, [], length, replicate, IfOk, Some};
ghost use Rattle.std.specs.Option.{option_map};
ghost use Rattle.store_values.specs.declared.values.Value.TheVariants as value;
ghost use Rattle.store_parts.specs.Extents.{place_in, place_within};
ghost use Rattle.store_parts.specs.Scopes.{outward, parent_of, slot_of, with_slot, with_slot_of};

use bs_outside::NoMemory;
use std::alloc::{AllocError, Global};
use std::marker::Model;
use store_values::{EnvId, Value};

/// Where the slots of an environment lie, and the environment around it.
#[derive(Clone, Copy, Drop)]
struct Extent {
    /// The environment around it.
    parent: Option<EnvId>,
    /// The place of its first slot.
    start: usize,
    /// The place behind its last slot.
    end: usize,
}

/// Environments, by their numbers. The slots of all of them lie in one vector. Contracts see a list of environments with their slots.
#[derive(Drop)]
pub struct Environments {
    extents: Vec<Extent>,
    slots: Vec<Value>,
}

impl Model for Environments {
    ghost use Rattle.std.specs.Prelude.{length};
    ghost use Rattle.store_parts.specs.Scopes.{Scopes};

    ghost Value = { Scopes };

    ghost use Rattle.store_parts.specs.Extents.{scopes_of, Follow};

    ghost view = { λ a. scopes_of a.extents.items a.slots.items };

    ghost invariant = { λ a. Follow 0 a.extents.items (length a.slots.items) };
}

impl Environments {
    /// No environments.
    pub fn new(alloc: Global) -> Environments
        ensures { result ≡ [] }
    {
        Environments {
            extents: Vec::new(alloc),
            slots: Vec::new(alloc),
        }
    }

    /// How many there are.
    pub fn len(&self) -> usize
        ensures { result ≡ length self.now }
    {
        self.extents.len()
    }

    /// Adds an environment of so many slots, each nil.
    pub fn add(&mut self, parent: Option<EnvId>, size: usize) -> Result<EnvId, NoMemory>
        ensures number { IfOk result (λ env. env.number ≡ length self.old) }
        ensures added { IfOk result (λ env. self.new ≡ self.old ++ record { parent = option_map (λ e. e.number) parent; slots = replicate size value.Nil } ∷ []) }
    {
        let start = self.slots.len();
        let number = self.extents.len();
        let Some(end) = start.checked_add(size) else {
            return Err(AllocError);
        };
        self.extents.reserve(1)?;
        self.slots.resize(end, Value::Nil)?;
        match self.extents.push(Extent { parent, start, end }) {
            Ok(()) => Ok(EnvId { number }),
            Err(_) => {
                self.slots.truncate(start);
                Err(AllocError)
            }
        }
    }

    /// The environment around one.
    #[tactic(auto, using(crate::proofs::Extended::parent_some, crate::proofs::Extended::parent_none))]
    fn parent(&self, env: EnvId) -> Option<EnvId>
        ensures { option_map (λ e. e.number) result ≡ parent_of self.now env.number }
    {
        match self.extents.get(env.number) {
            Some(extent) => extent.parent,
            None => None,
        }
    }

    /// The environment that stands `level` steps outward.
    fn outward(&self, env: EnvId, level: usize) -> Option<EnvId>
        ensures { option_map (λ e. e.number) result ≡ outward self.now level env.number }
    {
        let mut at = env;
        for _step in (0..level).rev() {
            at = self.parent(at)?;
        }
        Some(at)
    }

    /// The value in a slot of the environment that stands `level` steps outward.
    pub fn get(&self, env: EnvId, slot: usize, level: usize) -> Value
        ensures { result ≡ slot_of self.now slot (outward self.now level env.number) }
    {
        match self.outward(env, level) {
            Some(at) => self.slot(at, slot),
            None => Value::Nil,
        }
    }

    /// The value in a slot of an environment.
    #[tactic(auto, using(crate::proofs::Extended::read_some, crate::proofs::Extended::read_beyond, crate::proofs::Extended::read_none))]
    fn slot(&self, env: EnvId, slot: usize) -> Value
        ensures { result ≡ slot_of self.now slot (Some env.number) }
    {
        if let Some(place) = place_in(&self.extents, env.number, slot)
            && let Some(value) = self.slots.get(place)
        {
            return *value;
        }
        Value::Nil
    }

    /// Another value stands in the slot now.
    pub fn set(&mut self, env: EnvId, slot: usize, level: usize, value: Value)
        ensures { self.new ≡ with_slot_of self.old slot value (outward self.old level env.number) }
    {
        if let Some(at) = self.outward(env, level) {
            self.set_slot(at, slot, value);
        }
    }

    /// Another value stands in the slot of an environment now.
    #[tactic(auto, using(crate::proofs::Extended::set_some, crate::proofs::Extended::set_past, crate::proofs::Extended::set_none))]
    fn set_slot(&mut self, env: EnvId, slot: usize, value: Value)
        ensures { self.new ≡ with_slot self.old env.number slot value }
    {
        let Some(place) = place_in(&self.extents, env.number, slot) else {
            return;
        };
        if place < self.slots.len() {
            self.slots[place] = value;
        }
    }
}

/// Where a slot of an extent lies.
fn place_within(extent: &Extent, slot: usize) -> Option<usize>
    ensures { result ≡ place_within extent.now slot }
{
    let Extent { start, end, .. } = *extent;
    if slot < end.saturating_sub(start) {
        return Some(start + slot);
    }
    None
}

/// Where a slot of the extent with this number lies.
#[tactic(auto, using(crate::proofs::Extended::placed_some, crate::proofs::Extended::placed_none))]
fn place_in(extents: &[Extent], number: usize, slot: usize) -> Option<usize>
    ensures { result ≡ place_in extents.now number slot }
{
    match extents.get(number) {
        Some(extent) => place_within(extent, slot),
        None => None,
    }
}

//! The elements of an Array.
ghost use Rattle.std.specs.Prelude.{◌≡◌, ◌++◌, ◌∷◌, [], length, take, slice_get, slice_set, insert, remove, ◌≤◌, IfOk, OnOk, OnErr, IfSome};
ghost use Rattle.store_values.specs.declared.values.Value.TheVariants as value;

use bs_outside::NoMemory;
use std::alloc::Global;
use std::marker::Model;
use store_values::Value;

/// The elements of an Array, in order. Contracts see them as a list.
///
/// What is taken away at the front leaves a gap there, and what is added at the front goes into it.
#[derive(Drop)]
pub struct Elements {
    items: Vec<Value>,
    /// How many items before the first element are no elements.
    gap: usize,
}

impl Model for Elements {
    ghost use Rattle.std.specs.Prelude.{◌≤◌, length, drop};
    ghost use Rattle.store_parts.specs.Lists.{Values};

    ghost Value = { Values };

    ghost view = { λ a. drop a.gap a.items.items };

    ghost invariant = { λ a. a.gap ≤ length a.items.items };
}

impl Elements {
    /// No elements.
    pub fn new(alloc: Global) -> Elements
        ensures { result ≡ [] }
    {
        Elements {
            items: Vec::new(alloc),
            gap: 0,
        }
    }

    /// These elements.
    pub fn from_slice(alloc: Global, values: &[Value]) -> Result<Elements, NoMemory>
        ensures { IfOk result (λ made. made ≡ values.now) }
    {
        Ok(Elements {
            items: Vec::from_slice(alloc, values)?,
            gap: 0,
        })
    }

    /// How many there are.
    pub fn len(&self) -> usize
        ensures { result ≡ length self.now }
    {
        self.as_slice().len()
    }

    /// The elements.
    pub fn as_slice(&self) -> &[Value]
        ensures { result.now ≡ self.now }
    {
        let items = self.items.as_slice();
        if self.gap <= items.len() {
            return items.split_at(self.gap).1;
        }
        &[]
    }

    /// Adds one behind the last, in constant time but for the growth of the memory.
    pub fn push(&mut self, value: Value) -> Result<(), NoMemory>
        ensures ok { OnOk result (self.new ≡ self.old ++ value ∷ []) }
        ensures err { OnErr result (self.new ≡ self.old) }
    {
        self.items.push(value)?;
        Ok(())
    }

    /// Adds these behind the last.
    pub fn extend(&mut self, values: &[Value]) -> Result<(), NoMemory>
        ensures ok { OnOk result (self.new ≡ self.old ++ values.now) }
        ensures err { OnErr result (self.new ≡ self.old) }
    {
        self.items.extend_from_slice(values)?;
        Ok(())
    }

    /// Another value stands at the place now.
    #[tactic(auto, using(crate::proofs::Gaps::set_behind, crate::proofs::Gaps::set_beyond))]
    pub fn set(&mut self, place: usize, value: Value)
        ensures { self.new ≡ slice_set self.old place value }
    {
        if place < self.items.len() - self.gap {
            self.items[self.gap + place] = value;
        }
    }

    /// Adds one at the place: in constant time at the end and, but for the growth of the memory, at the front.
    #[tactic(auto, using(crate::proofs::Gaps::insert_behind, crate::proofs::Gaps::first_inserted))]
    pub fn insert(&mut self, alloc: Global, place: usize, value: Value) -> Result<(), NoMemory>
        ensures ok { place ≤ length self.old → OnOk result (self.new ≡ insert self.old place value) }
        ensures err { OnErr result (self.new ≡ self.old) }
    {
        if place == 0 && self.gap < self.items.len() {
            return self.add_first(alloc, value);
        }
        if place <= self.items.len() - self.gap {
            self.items.insert(self.gap + place, value)?;
        }
        Ok(())
    }

    /// Adds one before the first.
    #[tactic(auto, using(crate::proofs::Gaps::first_set))]
    fn add_first(&mut self, alloc: Global, value: Value) -> Result<(), NoMemory>
        ensures ok { OnOk result (self.new ≡ value ∷ self.old) }
        ensures err { OnErr result (self.new ≡ self.old) }
    {
        if self.gap == 0 {
            return self.widen_with(alloc, value);
        }
        self.gap -= 1;
        self.items[self.gap] = value;
        Ok(())
    }

    /// Adds one before the first, in a new gap that is as wide as the elements.
    #[tactic(auto, using(crate::proofs::Gaps::doubled_set))]
    fn widen_with(&mut self, alloc: Global, value: Value) -> Result<(), NoMemory>
        ensures ok { OnOk result (self.new ≡ value ∷ self.old) }
        ensures err { OnErr result (self.new ≡ self.old) }
    {
        let len = self.len();
        let mut items = doubled(alloc, self.as_slice())?;
        items[len] = value;
        self.items = items;
        self.gap = len;
        Ok(())
    }

    /// Takes the one at the place away: in constant time at the end and at the front.
    #[tactic(auto, using(crate::proofs::Gaps::remove_behind, crate::proofs::Gaps::remove_beyond, crate::proofs::Gaps::first_removed))]
    pub fn remove(&mut self, place: usize) -> Value
        ensures value { IfSome (slice_get self.old place) (λ value. result ≡ value) }
        ensures rest { self.new ≡ remove self.old place }
    {
        if place == 0
            && let Some(first) = self.items.get(self.gap)
        {
            let first = *first;
            self.gap += 1;
            return first;
        }
        if place < self.items.len() - self.gap {
            return self.items.remove(self.gap + place);
        }
        Value::Nil
    }

    /// Takes all away but the first `len`.
    #[tactic(auto, using(crate::proofs::Gaps::take_behind, crate::proofs::Gaps::take_beyond))]
    pub fn truncate(&mut self, len: usize)
        ensures { self.new ≡ take len self.old }
    {
        if len <= self.items.len() - self.gap {
            self.items.truncate(self.gap + len);
        }
    }
}

/// A nil and these values, and these values again.
fn doubled(alloc: Global, values: &[Value]) -> Result<Vec<Value>, NoMemory>
    ensures { IfOk result (λ made. made.items ≡ (value.Nil ∷ values.now) ++ values.now) }
{
    let mut made = Vec::with_capacity(alloc, values.len().saturating_mul(2).saturating_add(1))?;
    made.push(Value::Nil)?;
    made.extend_from_slice(values)?;
    made.extend_from_slice(values)?;
    Ok(made)
}

//! Arrays.
ghost use Rattle.std.specs.Prelude.{◌≡◌, ◌++◌, ◌∷◌, [], length, slice_set, take, OnOk};
ghost use Rattle.ruby_meaning.specs.Value as meant;
ghost use Rattle.ruby_meaning.specs.Store.{array_cells, kind_at, new_object};
ghost use Rattle.ruby_store.specs.Cells.{Takes, OnFull, cost_if};
ghost use Rattle.ruby_store.specs.Changes.{Changes, IsChanged, Makes};
ghost use Rattle.ruby_store.specs.Kinds.{elements_by, elements_in, is_elements};
ghost use Rattle.ruby_store.specs.Model.{Reading, objects_of, value_of, values_of};

use crate::object_parts::Content;
use crate::{ObjectId, Store, StoreFault, Value};
use bs_outside::NoMemory;
use std::alloc::Global;
use store_parts::Elements;

impl Store {
    /// Makes an Array without elements.
    pub fn new_array(&mut self, alloc: Global) -> Result<ObjectId, StoreFault>
        ensures { Makes (array_cells 0) (λ read. new_object (meant.elements [])) self.old result self.new }
    {
        self.new_array_of(alloc, &[])
    }

    /// Makes an Array of these elements.
    pub fn new_array_of(&mut self, alloc: Global, values: &[Value]) -> Result<ObjectId, StoreFault>
        ensures { Makes (array_cells (length values.now)) (λ read. new_object (meant.elements (values_of read values.now))) self.old result self.new }
    {
        let elements = Elements::from_slice(alloc, values)?;
        self.make(
            (values.len() as u64).saturating_add(1),
            Content::Array(elements),
            false,
        )
    }

    /// The elements of an Array.
    #[tactic(auto, using(crate::proofs::Standing::kind_some, crate::proofs::Standing::kind_none))]
    pub fn array(&self, id: ObjectId) -> &[Value]
        ensures { (read : Reading) → values_of read result.now ≡ elements_in (kind_at (objects_of read self.now) id.number) }
    {
        match self.objects.get(id.number) {
            Some(object) => object.content.elements(),
            None => &[],
        }
    }

    /// Adds an element at a place, in constant time at the end and at the front.
    pub fn array_insert(
        &mut self,
        alloc: Global,
        id: ObjectId,
        place: usize,
        value: Value,
    ) -> Result<(), StoreFault>
        ensures cells { (read : Reading) → Takes self.old.cells (cost_if (is_elements (kind_at (objects_of read self.old) id.number)) (1)) result self.new.cells }
        ensures full { OnFull result (self.new ≡ self.old) }
    {
        let cells = self.charged(if self.is_array(id) { 1 } else { 0 })?;
        if let Some(object) = self.objects.get_mut(id.number)
            && let Content::Array(elements) = &mut object.content
        {
            elements.insert(alloc, place, value)?;
        }
        self.cells = cells;
        Ok(())
    }

    /// Whether an Array has this number.
    #[tactic(auto, using(crate::proofs::Standing::kind_some, crate::proofs::Standing::kind_none))]
    fn is_array(&self, id: ObjectId) -> bool
        ensures { (read : Reading) → result ≡ is_elements (kind_at (objects_of read self.now) id.number) }
    {
        match self.objects.get(id.number) {
            Some(object) => object.content.is_array(),
            None => false,
        }
    }

    /// Adds an element behind the last.
    pub fn array_push(&mut self, id: ObjectId, value: Value) -> Result<(), StoreFault>
        ensures { (read : Reading) → Changes id.number (cost_if (is_elements (kind_at (objects_of read self.old) id.number)) 1) (λ read. elements_by (λ vs. vs ++ value_of read value ∷ [])) self.old result self.new }
    {
        let cells = self.charged(self.cells_in_array(id, 1))?;
        self.push_at(id, value)?;
        self.cells = cells;
        Ok(())
    }

    /// What so many elements more cost: nothing where there is no Array.
    fn cells_in_array(&self, id: ObjectId, count: u64) -> u64
        ensures { (read : Reading) → result ≡ cost_if (is_elements (kind_at (objects_of read self.now) id.number)) count }
    {
        if self.is_array(id) { count } else { 0 }
    }

    /// Adds an element behind the last, which takes no cells.
    fn push_at(&mut self, id: ObjectId, value: Value) -> Result<(), NoMemory>
        ensures { OnOk result (IsChanged id.number 0 (λ read. elements_by (λ vs. vs ++ value_of read value ∷ [])) self.old self.new) }
    {
        match self.objects.get_mut(id.number) {
            Some(object) => {
                object.content.push(value)?;
                Ok(())
            }
            None => Ok(()),
        }
    }

    /// Adds these elements behind the last, which takes no cells.
    fn extend_at(&mut self, id: ObjectId, values: &[Value]) -> Result<(), NoMemory>
        ensures { OnOk result (IsChanged id.number 0 (λ read. elements_by (λ vs. vs ++ values_of read values.now)) self.old self.new) }
    {
        match self.objects.get_mut(id.number) {
            Some(object) => {
                object.content.extend(values)?;
                Ok(())
            }
            None => Ok(()),
        }
    }

    /// Adds these elements behind the last.
    pub fn array_extend(&mut self, id: ObjectId, values: &[Value]) -> Result<(), StoreFault>
        ensures { (read : Reading) → Changes id.number (cost_if (is_elements (kind_at (objects_of read self.old) id.number)) (length values.now)) (λ read. elements_by (λ vs. vs ++ values_of read values.now)) self.old result self.new }
    {
        let cells = self.charged(self.cells_in_array(id, values.len() as u64))?;
        self.extend_at(id, values)?;
        self.cells = cells;
        Ok(())
    }

    /// Another value stands at the place now.
    pub fn array_set(&mut self, id: ObjectId, place: usize, value: Value)
        ensures { IsChanged id.number 0 (λ read. elements_by (λ vs. slice_set vs place (value_of read value))) self.old self.new }
    {
        if let Some(object) = self.objects.get_mut(id.number) {
            object.content.set(place, value);
        }
    }

    /// Takes the element at the place away, in constant time at the end and at the front.
    pub fn array_remove(&mut self, id: ObjectId, place: usize) -> Value {
        if let Some(object) = self.objects.get_mut(id.number)
            && let Content::Array(elements) = &mut object.content
        {
            return elements.remove(place);
        }
        Value::Nil
    }

    /// Takes all elements away but the first `len`.
    pub fn array_truncate(&mut self, id: ObjectId, len: usize)
        ensures { IsChanged id.number 0 (λ read. elements_by (λ vs. take len vs)) self.old self.new }
    {
        if let Some(object) = self.objects.get_mut(id.number) {
            object.content.truncate(len);
        }
    }
}

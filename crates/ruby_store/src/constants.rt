//! Constants.
use crate::classes::OBJECT;
use crate::{ClassId, Name, Store, StoreFault, Value};

impl Store {
    /// Sets a constant, which takes a cell at first.
    pub fn set_constant(
        &mut self,
        class: ClassId,
        name: Name,
        value: Value,
    ) -> Result<(), StoreFault> {
        let is_new = self.is_class(class) && self.own_constant(class, name).is_none();
        let cells = self.charged(if is_new { 1 } else { 0 })?;
        if let Some(record) = self.class_record_mut(class) {
            record.constants.set(name, value)?;
        }
        self.cells = cells;
        Ok(())
    }

    /// The constant that the class itself has.
    pub fn own_constant(&self, class: ClassId, name: Name) -> Option<Value> {
        self.class_record(class)?.constants.get(name)
    }

    /// The constant of a name alone, in the class bodies around it, the innermost first; or of a later name of a path, behind the one class or
    /// module that stands before.
    pub fn find_constant(&self, scopes: &[ClassId], later: bool, name: Name) -> Option<Value> {
        let innermost = match scopes.first() {
            Some(class) => *class,
            None => OBJECT,
        };
        if later {
            return self.constant_behind(innermost, name);
        }
        for class in scopes {
            if let Some(value) = self.own_constant(*class, name) {
                return Some(value);
            }
        }
        match self.constant_holder(innermost, name) {
            Some((_, value)) => Some(value),
            None => self.own_constant(OBJECT, name),
        }
    }

    /// The first class of a line that has the constant, and its value.
    fn first_constant(&self, line: &[ClassId], name: Name) -> Option<(ClassId, Value)> {
        for class in line {
            if let Some(value) = self.own_constant(*class, name) {
                return Some((*class, value));
            }
        }
        None
    }

    /// The first ancestor that has the constant, and its value.
    fn constant_holder(&self, class: ClassId, name: Name) -> Option<(ClassId, Value)> {
        let mut next = Some(class);
        for _ in 0..self.classes.len() {
            let at = next?;
            if let Some(found) = self.first_constant(self.line(at), name) {
                return Some(found);
            }
            next = self.superclass(at);
        }
        None
    }

    /// The constant of a name behind a class. Object's own constants count for Object alone.
    fn constant_behind(&self, class: ClassId, name: Name) -> Option<Value> {
        let (holder, value) = self.constant_holder(class, name)?;
        if holder.number == OBJECT.number && class.number != OBJECT.number {
            return None;
        }
        Some(value)
    }
}

//! How methods are found.
ghost use Rattle.std.specs.Prelude.{◌≡◌};
ghost use Rattle.ruby_meaning.specs.Store.{is_class_or_module, kind_at, method_cells};
ghost use Rattle.ruby_store.specs.Cells.{Takes, OnFull, cost_if};
ghost use Rattle.ruby_store.specs.Model.{Reading, objects_of};

use crate::{ClassId, MethodRow, Name, Store, StoreFault, Value};

impl Store {
    /// Adds a method row, which is the latest of its name.
    pub fn add_method(
        &mut self,
        class: ClassId,
        name: Name,
        row: MethodRow,
    ) -> Result<(), StoreFault>
        ensures cells { (read : Reading) → Takes self.old.cells (cost_if (is_class_or_module (kind_at (objects_of read self.old) class.number)) (method_cells)) result self.new.cells }
        ensures full { OnFull result (self.new ≡ self.old) }
    {
        let cells = self.charged(if self.is_class(class) { 1 } else { 0 })?;
        if let Some(record) = self.class_record_mut(class) {
            record.methods.add(name, row)?;
        }
        self.cache.clear();
        self.cells = cells;
        Ok(())
    }

    /// Adds a class-method row, which is the latest of its name.
    pub fn add_class_method(
        &mut self,
        class: ClassId,
        name: Name,
        row: MethodRow,
    ) -> Result<(), StoreFault>
        ensures cells { (read : Reading) → Takes self.old.cells (cost_if (is_class_or_module (kind_at (objects_of read self.old) class.number)) (method_cells)) result self.new.cells }
        ensures full { OnFull result (self.new ≡ self.old) }
    {
        let cells = self.charged(if self.is_class(class) { 1 } else { 0 })?;
        if let Some(record) = self.class_record_mut(class) {
            record.class_methods.add(name, row)?;
        }
        self.cells = cells;
        Ok(())
    }

    /// The method of an object of the class: the first row of this name in the ancestors.
    pub fn find_method(&self, class: ClassId, name: Name) -> Option<MethodRow> {
        match self.cache.get(class, name) {
            Some(found) => found,
            None => self.search_method(class, name),
        }
    }

    /// The same as `find_method`, and what was found is found again without a walk.
    pub fn look_up_method(&mut self, class: ClassId, name: Name) -> Option<MethodRow> {
        if let Some(found) = self.cache.get(class, name) {
            return found;
        }
        let found = self.search_method(class, name);
        self.cache.put(class, name, found);
        found
    }

    fn search_method(&self, class: ClassId, name: Name) -> Option<MethodRow> {
        let mut next = Some(class);
        for _ in 0..self.classes.len() {
            let at = next?;
            if let Some(row) = self.first_row(self.line(at), name) {
                return Some(row);
            }
            next = self.superclass(at);
        }
        None
    }

    /// The first row of this name in a line.
    fn first_row(&self, line: &[ClassId], name: Name) -> Option<MethodRow> {
        for class in line {
            if let Some(row) = self.own_row(*class, name) {
                return Some(row);
            }
        }
        None
    }

    fn own_row(&self, class: ClassId, name: Name) -> Option<MethodRow> {
        self.class_record(class)?.methods.get(name)
    }

    /// The method where the class or module is the receiver.
    pub fn find_class_method(&self, class: ClassId, name: Name) -> Option<MethodRow> {
        match self.search_class_method(Some(class), name) {
            Some(row) => Some(row),
            None => self.find_method(self.class_of_class(class), name),
        }
    }

    /// The first class-method row of this name, from the class upward.
    fn search_class_method(&self, from: Option<ClassId>, name: Name) -> Option<MethodRow> {
        let mut next = from;
        for _ in 0..self.classes.len() {
            let record = self.class_record(next?)?;
            if let Some(row) = record.class_methods.get(name) {
                return Some(row);
            }
            next = record.above;
        }
        None
    }

    /// The next row of this name in the receiver's order, after the rows that the running method was added to.
    pub fn find_super(
        &self,
        receiver: &Value,
        owner: ClassId,
        on_class: bool,
        name: Name,
    ) -> Option<MethodRow> {
        if !on_class {
            return self.find_row_behind(self.class_of(receiver), owner, name);
        }
        match *receiver {
            Value::Class(class) => self.find_class_row_behind(class, owner, name),
            _ => None,
        }
    }

    /// The first row of this name in the ancestors of the class that stand behind the owner, which may stand in them.
    fn find_row_behind(&self, class: ClassId, owner: ClassId, name: Name) -> Option<MethodRow> {
        let mut next = Some(class);
        for _ in 0..self.classes.len() {
            let at = next?;
            next = self.superclass(at);
            if let Some(rest) = behind(self.line(at), owner) {
                return match self.first_new_row(rest, class, owner, name) {
                    Some(row) => Some(row),
                    None => self.find_row_above(class, at, owner, name),
                };
            }
        }
        None
    }

    /// The first row of this name in the lines above a class, but for what stands among the ancestors up to the owner already.
    fn find_row_above(
        &self,
        class: ClassId,
        at: ClassId,
        owner: ClassId,
        name: Name,
    ) -> Option<MethodRow> {
        let mut next = self.superclass(at);
        for _ in 0..self.classes.len() {
            let above = next?;
            if let Some(row) = self.first_new_row(self.line(above), class, owner, name) {
                return Some(row);
            }
            next = self.superclass(above);
        }
        None
    }

    /// The first row of this name in a line, but for what stands among the ancestors of the class up to the owner already.
    fn first_new_row(
        &self,
        line: &[ClassId],
        class: ClassId,
        owner: ClassId,
        name: Name,
    ) -> Option<MethodRow> {
        for ancestor in line {
            if let Some(row) = self.own_row(*ancestor, name)
                && !self.stands_up_to(class, *ancestor, owner)
            {
                return Some(row);
            }
        }
        None
    }

    /// Whether the ancestor stands, in the lines from the class upward, no later than the owner.
    fn stands_up_to(&self, class: ClassId, ancestor: ClassId, owner: ClassId) -> bool {
        let mut next = Some(class);
        for _ in 0..self.classes.len() {
            let Some(at) = next else {
                return false;
            };
            for other in self.line(at) {
                if other.number == ancestor.number {
                    return true;
                }
                if other.number == owner.number {
                    return false;
                }
            }
            next = self.superclass(at);
        }
        false
    }

    /// The next row of this name behind the class-method rows of the owner, where a class or a module is the receiver.
    fn find_class_row_behind(
        &self,
        class: ClassId,
        owner: ClassId,
        name: Name,
    ) -> Option<MethodRow> {
        let mut next = Some(class);
        for _ in 0..self.classes.len() {
            let at = next?;
            next = self.superclass(at);
            if at.number == owner.number {
                return match self.search_class_method(next, name) {
                    Some(row) => Some(row),
                    None => self.find_method(self.class_of_class(class), name),
                };
            }
        }
        None
    }
}

/// What stands behind a class in a line, None where it does not stand there.
fn behind(line: &[ClassId], class: ClassId) -> Option<&[ClassId]> {
    let mut rest = line;
    for _ in 0..line.len() {
        let (first, others) = rest.split_first()?;
        if first.number == class.number {
            return Some(others);
        }
        rest = others;
    }
    None
}

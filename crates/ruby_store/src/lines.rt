//! Ancestors.
use crate::{ClassId, Store};
use bs_outside::NoMemory;
use indexmap::IndexSet;
use std::alloc::Global;

/// Whether a class stands in a line.
pub(crate) fn is_in_line(line: &[ClassId], class: ClassId) -> bool {
    for other in line {
        if other.number == class.number {
            return true;
        }
    }
    false
}

impl Store {
    /// The class and the ancestors of its modules, each at its first place.
    pub(crate) fn line(&self, class: ClassId) -> &[ClassId] {
        match self.class_record(class) {
            Some(record) => record.line.as_slice(),
            None => &[],
        }
    }

    /// Whether `other` is among the ancestors of `class`.
    pub fn has_ancestor(&self, class: ClassId, other: ClassId) -> bool {
        let mut next = Some(class);
        for _ in 0..self.classes.len() {
            let Some(at) = next else {
                return false;
            };
            if is_in_line(self.line(at), other) {
                return true;
            }
            next = self.superclass(at);
        }
        false
    }

    /// Includes a module, where it is not among the ancestors of the class yet. Where memory fails, nothing changes.
    pub fn include(
        &mut self,
        alloc: Global,
        class: ClassId,
        module: ClassId,
    ) -> Result<(), NoMemory> {
        if self.has_ancestor(class, module) {
            return Ok(());
        }
        let Some(record) = self.class_record_mut(class) else {
            return Ok(());
        };
        record.modules.push(module)?;
        match self.lines_through(alloc, class) {
            Ok(lines) => {
                self.set_lines(lines);
                self.set_included(module);
                self.cache.clear();
                Ok(())
            }
            Err(fault) => {
                self.take_back_module(class);
                Err(fault)
            }
        }
    }

    /// Takes the latest module of a class away.
    fn take_back_module(&mut self, class: ClassId) {
        if let Some(record) = self.class_record_mut(class) {
            record.modules.pop();
        }
    }

    /// The module stands in other lines than its own from now on.
    fn set_included(&mut self, module: ClassId) {
        if let Some(record) = self.class_record_mut(module) {
            record.is_included = true;
        }
    }

    /// The lines in which a class stands, by the modules that there are now.
    fn lines_through(&self, alloc: Global, class: ClassId) -> Result<Vec<Vec<ClassId>>, NoMemory> {
        let mut lines = Vec::new(alloc);
        if !self.is_included(class) {
            lines.push(self.walk_modules(alloc, class)?)?;
            return Ok(lines);
        }
        for at in 0..self.classes.len() {
            if let Some(follower) = self.follower(at, class) {
                lines.push(self.walk_modules(alloc, follower)?)?;
            }
        }
        Ok(lines)
    }

    /// Whether a class is a module that another one includes.
    fn is_included(&self, class: ClassId) -> bool {
        match self.class_record(class) {
            Some(record) => record.is_included,
            None => false,
        }
    }

    /// The class that lies at this place, where the other one stands in its line.
    fn follower(&self, at: usize, other: ClassId) -> Option<ClassId> {
        let class = *self.classes.get(at)?;
        if is_in_line(self.line(class), other) {
            return Some(class);
        }
        None
    }

    /// These lines are those of the classes that they begin with.
    fn set_lines(&mut self, lines: Vec<Vec<ClassId>>) {
        for line in lines {
            if let Some(class) = line.first()
                && let Some(record) = self.class_record_mut(*class)
            {
                record.line = line;
            }
        }
    }

    /// The class and the ancestors of its modules, each at its first place.
    fn walk_modules(&self, alloc: Global, class: ClassId) -> Result<Vec<ClassId>, NoMemory> {
        let mut seen = IndexSet::new(alloc);
        let mut line = Vec::new(alloc);
        let mut open = Vec::new(alloc);
        open.push(class)?;
        // A class is opened once, so this ends; the bound says so to a reader of the loop alone.
        for _ in 0..u64::MAX {
            let Some(next) = open.pop() else {
                break;
            };
            let (_, is_new) = seen.insert_full(next.number)?;
            if is_new {
                line.push(next)?;
                if let Some(record) = self.class_record(next) {
                    open.extend_from_slice(record.modules.as_slice())?;
                }
            }
        }
        Ok(line)
    }
}

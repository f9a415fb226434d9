//! The variables of objects.
use crate::classes::NO_NAME;
use crate::object_parts::{Extras, Object};
use crate::{Name, Store, StoreFault, Value};
use bs_outside::NoMemory;
use std::alloc::Global;
use store_parts::NameMap;

/// The number of the object, class or module that a value is.
fn number_of(of: &Value) -> Option<usize> {
    match *of {
        Value::Object(id) => Some(id.number),
        Value::Class(class) => Some(class.number),
        _ => None,
    }
}

impl Store {
    /// The variables of an object, a class or a module.
    fn variables_of(&self, of: &Value) -> Option<&NameMap> {
        match &self.objects.get(number_of(of)?)?.extras {
            Some(extras) => Some(&extras.variables),
            None => None,
        }
    }

    /// How many variables were set.
    pub fn variable_count(&self, of: &Value) -> usize {
        match self.variables_of(of) {
            Some(variables) => variables.len(),
            None => 0,
        }
    }

    /// The variable at a place, and its value. They stand in the order in which they were first set.
    pub fn variable_at(&self, of: &Value, place: usize) -> (Name, Value) {
        if let Some(variables) = self.variables_of(of)
            && let Some(variable) = variables.at(place)
        {
            return variable;
        }
        (NO_NAME, Value::Nil)
    }

    /// The value of a variable, nil where it was never set.
    pub fn variable(&self, of: &Value, name: Name) -> Value {
        if let Some(variables) = self.variables_of(of)
            && let Some(value) = variables.get(name)
        {
            return value;
        }
        Value::Nil
    }

    /// Sets a variable of an object, a class or a module, which takes a cell at first.
    pub fn set_variable(
        &mut self,
        alloc: Global,
        of: &Value,
        name: Name,
        value: Value,
    ) -> Result<(), StoreFault> {
        let Some(number) = number_of(of) else {
            return Ok(());
        };
        let is_new = number < self.objects.len() && !self.has_variable(of, name);
        let cells = self.charged(if is_new { 1 } else { 0 })?;
        if let Some(object) = self.objects.get_mut(number) {
            object.set_variable(alloc, name, value)?;
        }
        self.cells = cells;
        Ok(())
    }

    /// Whether a variable was set.
    fn has_variable(&self, of: &Value, name: Name) -> bool {
        match self.variables_of(of) {
            Some(variables) => variables.get(name).is_some(),
            None => false,
        }
    }
}

impl Object {
    /// The variable has the value now: in its place, or else last.
    fn set_variable(&mut self, alloc: Global, name: Name, value: Value) -> Result<(), NoMemory> {
        match &mut self.extras {
            Some(extras) => extras.variables.set(name, value),
            None => {
                let mut variables = NameMap::new(alloc);
                variables.set(name, value)?;
                let extras = Extras {
                    variables,
                    thrown: None,
                };
                self.extras = Some(Box::new(alloc, extras)?);
                Ok(())
            }
        }
    }
}

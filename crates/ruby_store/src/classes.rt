//! Classes and modules.
ghost use Rattle.std.specs.Prelude.{◌≡◌, IfOk, Some, None, true, false};
ghost use Rattle.ruby_meaning.specs.Store.{class_of, class_of_kind, is_class_or_module, kind_at};
ghost use Rattle.ruby_store.specs.Changes.{IsClassMade, MakesClass, new_class};
ghost use Rattle.ruby_store.specs.Kinds.{class_or_object};
ghost use Rattle.ruby_store.specs.Model.{Reading, objects_of, value_of};

use crate::object_parts::{Class, Content};
use crate::{ClassId, Name, Store, StoreFault, Value};
use bs_outside::NoMemory;
use std::alloc::Global;
use store_parts::{NameMap, RowTable};

/// How many classes and modules a store has from its start.
pub(crate) const START_CLASSES: usize = 33;

/// The numbers of classes of the start.
pub(crate) const OBJECT: ClassId = ClassId { number: 0 };

pub(crate) const MODULE: ClassId = ClassId { number: 1 };

pub(crate) const CLASS: ClassId = ClassId { number: 2 };

/// A name that no table gives, so that it has no text: that of what is no class.
pub(crate) const NO_NAME: Name = Name { number: usize::MAX };

const NIL: ClassId = ClassId { number: 3 };

const TRUE: ClassId = ClassId { number: 4 };

const FALSE: ClassId = ClassId { number: 5 };

const INTEGER: ClassId = ClassId { number: 6 };

pub(crate) const STRING: ClassId = ClassId { number: 7 };

const SYMBOL: ClassId = ClassId { number: 8 };

pub(crate) const ARRAY: ClassId = ClassId { number: 9 };

pub(crate) const HASH: ClassId = ClassId { number: 10 };

pub(crate) const RANGE: ClassId = ClassId { number: 11 };

pub(crate) const PROC: ClassId = ClassId { number: 12 };

impl Store {
    /// Makes a class below another one, Object where none is named.
    pub fn new_class(
        &mut self,
        alloc: Global,
        name: Name,
        above: Option<ClassId>,
    ) -> Result<ClassId, StoreFault>
        ensures { MakesClass (new_class name.number false (Some (class_or_object above))) self.old result self.new }
    {
        let cells = self.charged(4)?;
        let above = class_or_object(above);
        Ok(self.add_class(alloc, cells, name, false, Some(above))?)
    }

    /// Makes a module.
    pub fn new_module(&mut self, alloc: Global, name: Name) -> Result<ClassId, StoreFault>
        ensures { MakesClass (new_class name.number true None) self.old result self.new }
    {
        let cells = self.charged(4)?;
        Ok(self.add_class(alloc, cells, name, true, None)?)
    }

    /// Adds a class or a module without rows and constants.
    pub(crate) fn add_class(
        &mut self,
        alloc: Global,
        cells: u64,
        name: Name,
        is_module: bool,
        above: Option<ClassId>,
    ) -> Result<ClassId, NoMemory>
        ensures { IfOk result (λ class. IsClassMade cells (new_class name.number is_module above) self.old self.new class) }
    {
        let class = ClassId {
            number: self.objects.len(),
        };
        let mut line = Vec::new(alloc);
        line.push(class)?;
        let record = Class {
            name,
            is_module,
            above,
            modules: Vec::new(alloc),
            line,
            is_included: false,
            methods: RowTable::new(alloc),
            class_methods: RowTable::new(alloc),
            constants: NameMap::new(alloc),
        };
        let record = Box::new(alloc, record)?;
        self.classes.push(class)?;
        match self.add_object(cells, Content::Class(record), false) {
            Ok(_) => Ok(class),
            Err(fault) => {
                self.classes.pop();
                Err(fault)
            }
        }
    }

    /// Whether a class or a module has this number.
    #[tactic(auto, using(crate::proofs::Standing::kind_some, crate::proofs::Standing::kind_none))]
    pub(crate) fn is_class(&self, class: ClassId) -> bool
        ensures { (read : Reading) → result ≡ is_class_or_module (kind_at (objects_of read self.now) class.number) }
    {
        match self.objects.get(class.number) {
            Some(object) => object.content.is_class(),
            None => false,
        }
    }

    /// What a class has.
    pub(crate) fn class_record(&self, class: ClassId) -> Option<&Class> {
        match &self.objects.get(class.number)?.content {
            Content::Class(record) => Some(record),
            _ => None,
        }
    }

    /// What a class has, to be changed.
    pub(crate) fn class_record_mut(&mut self, class: ClassId) -> Option<&mut Class> {
        match &mut self.objects.get_mut(class.number)?.content {
            Content::Class(record) => Some(record),
            _ => None,
        }
    }

    /// Whether it is a module.
    pub fn is_module(&self, class: ClassId) -> bool {
        match self.class_record(class) {
            Some(record) => record.is_module,
            None => false,
        }
    }

    /// Its name, with the names of the classes around it. What is no class has a name without text.
    pub fn class_name(&self, class: ClassId) -> Name {
        match self.class_record(class) {
            Some(record) => record.name,
            None => NO_NAME,
        }
    }

    /// Its superclass, which Object and modules have not.
    pub fn superclass(&self, class: ClassId) -> Option<ClassId> {
        self.class_record(class)?.above
    }

    /// The class or module that a store has under this name from its start.
    pub fn core(&self, name: &[u8]) -> Option<ClassId> {
        // The names of these classes are the first ones of the table, in their order.
        let name = self.names.find(name)?;
        if name.number < START_CLASSES {
            return Some(ClassId {
                number: name.number,
            });
        }
        None
    }

    /// The class of a value.
    pub fn class_of(&self, of: &Value) -> ClassId
        ensures { (read : Reading) → result.number ≡ class_of (objects_of read self.now) (value_of read of.now) }
    {
        match *of {
            Value::Nil => NIL,
            Value::Bool(true) => TRUE,
            Value::Bool(false) => FALSE,
            Value::Int(_) => INTEGER,
            Value::Sym(_) => SYMBOL,
            Value::Class(class) => self.class_of_object(class.number),
            Value::Object(id) => self.class_of_object(id.number),
        }
    }

    /// The class of what stands at a place.
    #[tactic(auto, using(crate::proofs::Standing::kind_some, crate::proofs::Standing::kind_none))]
    fn class_of_object(&self, number: usize) -> ClassId
        ensures { (read : Reading) → result.number ≡ class_of_kind (kind_at (objects_of read self.now) number) }
    {
        match self.objects.get(number) {
            Some(object) => object.content.class(),
            None => OBJECT,
        }
    }

    /// Class, or Module of a module.
    pub(crate) fn class_of_class(&self, class: ClassId) -> ClassId {
        if self.is_module(class) { MODULE } else { CLASS }
    }

    /// Whether the class is among the ancestors of the value's class.
    pub fn is_a(&self, of: &Value, class: ClassId) -> bool {
        self.has_ancestor(self.class_of(of), class)
    }
}

/// The class, or Object where there is none.
fn class_or_object(class: Option<ClassId>) -> ClassId
    ensures { result ≡ class_or_object class }
{
    match class {
        Some(class) => class,
        None => OBJECT,
    }
}

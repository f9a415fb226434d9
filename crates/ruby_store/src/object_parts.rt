//! What an object and a class have.
ghost use Rattle.std.specs.Prelude.{◌≡◌, ◌++◌, ◌∷◌, [], take, slice_set, OnOk};
ghost use Rattle.ruby_meaning.specs.Store.{class_of_kind, is_class_or_module};
ghost use Rattle.ruby_store.specs.Kinds.{bytes_in, elements_by, elements_in, ends_in, is_elements, told_kind};
ghost use Rattle.ruby_store.specs.Model.{Reading, kind_of, value_of, values_of};

use crate::classes::{ARRAY, CLASS, HASH, MODULE, PROC, RANGE, STRING};
use bs_outside::{NoMemory, Text};
use ruby_tree::Name;
use store_parts::{Elements, HashTable, NameMap, RowTable};
use store_values::{ClassId, ProcRow, Value};

/// What sort of object it is.
#[derive(Clone, Copy, PartialEq, Eq, Debug, Drop)]
pub enum ObjectKind {
    /// A String.
    String,
    /// An Array.
    Array,
    /// A Hash.
    Hash,
    /// A Range.
    Range,
    /// A Proc.
    Proc,
    /// An object of a class that has no kind of its own.
    Plain,
    /// A class or a module.
    Class,
}

/// What an object holds.
#[derive(Drop)]
pub enum Content {
    /// The bytes of a String.
    String(Text),
    /// The elements of an Array.
    Array(Elements),
    /// The pairs of a Hash.
    Hash(Box<HashTable>),
    /// The ends of a Range.
    Range(Ends),
    /// The row of a Proc.
    Proc(Box<ProcRow>),
    /// The class of an object that has no kind of its own.
    Plain(ClassId),
    /// What a class or a module has.
    Class(Box<Class>),
}

impl Content {
    /// What sort of object has it.
    pub(crate) fn kind(&self) -> ObjectKind
        ensures { (read : Reading) → result ≡ told_kind (kind_of read self.now) }
    {
        match self {
            Content::String(_) => ObjectKind::String,
            Content::Array(_) => ObjectKind::Array,
            Content::Hash(_) => ObjectKind::Hash,
            Content::Range(_) => ObjectKind::Range,
            Content::Proc(_) => ObjectKind::Proc,
            Content::Plain(_) => ObjectKind::Plain,
            Content::Class(_) => ObjectKind::Class,
        }
    }

    /// Whether it is that of a class or a module.
    pub(crate) fn is_class(&self) -> bool
        ensures { (read : Reading) → result ≡ is_class_or_module (kind_of read self.now) }
    {
        match self {
            Content::Class(_) => true,
            _ => false,
        }
    }

    /// Whether it is that of an Array.
    pub(crate) fn is_array(&self) -> bool
        ensures { (read : Reading) → result ≡ is_elements (kind_of read self.now) }
    {
        match self {
            Content::Array(_) => true,
            _ => false,
        }
    }

    /// The bytes of a String.
    pub(crate) fn bytes(&self) -> &[u8]
        ensures { (read : Reading) → result.now ≡ bytes_in (kind_of read self.now) }
    {
        match self {
            Content::String(text) => text.as_slice(),
            _ => &[],
        }
    }

    /// The ends of a Range, and whether the last is left out.
    pub(crate) fn ends(&self) -> (i64, i64, bool)
        ensures { (read : Reading) → result ≡ ends_in (kind_of read self.now) }
    {
        match self {
            Content::Range(ends) => (ends.first, ends.last, ends.exclusive),
            _ => (0, 0, false),
        }
    }

    /// The elements of an Array.
    pub(crate) fn elements(&self) -> &[Value]
        ensures { (read : Reading) → values_of read result.now ≡ elements_in (kind_of read self.now) }
    {
        match self {
            Content::Array(elements) => elements.as_slice(),
            _ => &[],
        }
    }

    /// Adds an element behind the last of an Array.
    pub(crate) fn push(&mut self, value: Value) -> Result<(), NoMemory>
        ensures { (read : Reading) → OnOk result (kind_of read self.new ≡ elements_by (λ vs. vs ++ value_of read value ∷ []) (kind_of read self.old)) }
    {
        match self {
            Content::Array(elements) => elements.push(value),
            _ => Ok(()),
        }
    }

    /// Adds these elements behind the last of an Array.
    pub(crate) fn extend(&mut self, values: &[Value]) -> Result<(), NoMemory>
        ensures { (read : Reading) → OnOk result (kind_of read self.new ≡ elements_by (λ vs. vs ++ values_of read values.now) (kind_of read self.old)) }
    {
        match self {
            Content::Array(elements) => elements.extend(values),
            _ => Ok(()),
        }
    }

    /// Another value stands at the place of an Array now.
    #[tactic(auto, using(crate::proofs::Elements::map_set))]
    pub(crate) fn set(&mut self, place: usize, value: Value)
        ensures { (read : Reading) → kind_of read self.new ≡ elements_by (λ vs. slice_set vs place (value_of read value)) (kind_of read self.old) }
    {
        match self {
            Content::Array(elements) => elements.set(place, value),
            _ => {}
        }
    }

    /// Takes all elements of an Array away but the first `len`.
    #[tactic(auto, using(crate::proofs::Elements::map_take))]
    pub(crate) fn truncate(&mut self, len: usize)
        ensures { (read : Reading) → kind_of read self.new ≡ elements_by (λ vs. take len vs) (kind_of read self.old) }
    {
        match self {
            Content::Array(elements) => elements.truncate(len),
            _ => {}
        }
    }

    /// The class of an object that has it.
    pub(crate) fn class(&self) -> ClassId
        ensures { (read : Reading) → result.number ≡ class_of_kind (kind_of read self.now) }
    {
        match self {
            Content::String(_) => STRING,
            Content::Array(_) => ARRAY,
            Content::Hash(_) => HASH,
            Content::Range(_) => RANGE,
            Content::Proc(_) => PROC,
            Content::Plain(class) => *class,
            Content::Class(record) => {
                if record.is_module {
                    return MODULE;
                }
                CLASS
            }
        }
    }
}

/// An object.
#[derive(Drop)]
pub struct Object {
    /// What it holds.
    pub content: Content,
    /// Its variables, and where it was thrown: none where no variable was set and it was never thrown.
    pub extras: Option<Box<Extras>>,
    /// Whether it is frozen.
    pub frozen: bool,
}

/// What only some objects have.
#[derive(Drop)]
pub struct Extras {
    /// The variables that were set.
    pub variables: NameMap,
    /// Where an exception was thrown first.
    pub thrown: Option<Thrown>,
}

/// The ends of a Range.
#[derive(Clone, Copy, Drop)]
pub struct Ends {
    /// The first.
    pub first: i64,
    /// The last.
    pub last: i64,
    /// Whether the last is left out.
    pub exclusive: bool,
}

/// Where an exception was thrown first.
#[derive(Clone, Copy, Drop)]
pub struct Thrown {
    /// The path of the file, by its name in the table.
    pub path: Name,
    /// The line.
    pub line: u64,
}

/// A class or a module.
#[derive(Drop)]
pub struct Class {
    /// Its name, with the names of the classes around it, as in `A::B`.
    pub name: Name,
    /// Whether it is a module.
    pub is_module: bool,
    /// Its superclass.
    pub above: Option<ClassId>,
    /// Its modules, the latest last.
    pub modules: Vec<ClassId>,
    /// Itself and the ancestors of its modules, each at its first place.
    pub line: Vec<ClassId>,
    /// Whether it is a module that another one includes.
    pub is_included: bool,
    /// Its method rows.
    pub methods: RowTable,
    /// Its class-method rows.
    pub class_methods: RowTable,
    /// Its constants.
    pub constants: NameMap,
}

//! Objects, Strings, Ranges and Procs.
ghost use Rattle.std.specs.Prelude.{◌≡◌, ◌+◌, length, IfOk, None, true, false};
ghost use Rattle.ruby_meaning.specs.Value as meant;
ghost use Rattle.ruby_meaning.specs.Store.{string_cells, object_cells, range_cells, proc_cells, kind_at, new_object, new_string};
ghost use Rattle.ruby_store.specs.Changes.{IsAdded, Makes};
ghost use Rattle.ruby_store.specs.Kinds.{bytes_in, ends_in, told_kind};
ghost use Rattle.ruby_store.specs.Model.{Reading, object_of, objects_of};

use crate::object_parts::{Content, Ends, Extras, Object, ObjectKind, Thrown};
use crate::{ClassId, EnvId, Name, ObjectId, ProcRow, Store, StoreFault, Value};
use bs_outside::{NoMemory, Text};
use std::alloc::Global;
use store_parts::NameMap;

impl Store {
    /// Adds an object without variables. The cells are these then.
    pub(crate) fn add_object(
        &mut self,
        cells: u64,
        content: Content,
        frozen: bool,
    ) -> Result<ObjectId, NoMemory>
        ensures { IfOk result (λ id. IsAdded cells (record { content = content; extras = None; frozen = frozen }) self.old self.new id) }
    {
        let number = self.objects.len();
        let object = Object {
            content,
            extras: None,
            frozen,
        };
        self.objects.push(object)?;
        self.cells = cells;
        Ok(ObjectId { number })
    }

    /// Makes an object without variables, which takes so many cells.
    #[tactic(auto, using(crate::proofs::Made::made))]
    pub(crate) fn make(
        &mut self,
        cells: u64,
        content: Content,
        frozen: bool,
    ) -> Result<ObjectId, StoreFault>
        ensures { Makes cells (λ read. object_of read (record { content = content; extras = None; frozen = frozen })) self.old result self.new }
    {
        let after = self.charged(cells)?;
        Ok(self.add_object(after, content, frozen)?)
    }

    /// The object with this number.
    pub(crate) fn object(&self, id: ObjectId) -> Option<&Object> {
        self.objects.get(id.number)
    }

    /// What sort of object it is.
    #[tactic(auto, using(crate::proofs::Standing::kind_some, crate::proofs::Standing::kind_none))]
    pub fn kind(&self, id: ObjectId) -> ObjectKind
        ensures { (read : Reading) → result ≡ told_kind (kind_at (objects_of read self.now) id.number) }
    {
        match self.objects.get(id.number) {
            Some(object) => object.content.kind(),
            None => ObjectKind::Plain,
        }
    }

    /// Makes an object of a class that has no kind of its own.
    pub fn new_object(&mut self, class: ClassId) -> Result<ObjectId, StoreFault>
        ensures { Makes object_cells (λ read. new_object (meant.plain class.number)) self.old result self.new }
    {
        self.make(1, Content::Plain(class), false)
    }

    /// Makes a String, which is frozen.
    pub fn new_string(&mut self, alloc: Global, bytes: &[u8]) -> Result<ObjectId, StoreFault>
        ensures { Makes (string_cells (length bytes.now)) (λ read. new_string bytes.now) self.old result self.new }
    {
        let text = Text::new(alloc, bytes)?;
        self.make(
            cells_of_string(bytes.len() as u64),
            Content::String(text),
            true,
        )
    }

    /// Makes a String of the bytes of the vector, which is not copied.
    pub fn new_string_of(&mut self, bytes: Vec<u8>) -> Result<ObjectId, StoreFault>
        ensures { Makes (string_cells (length bytes.items)) (λ read. new_string bytes.items) self.old result self.new }
    {
        let cells = cells_of_string(bytes.len() as u64);
        self.make(cells, Content::String(Text::from_vec(bytes)), true)
    }

    /// The bytes of a String.
    #[tactic(auto, using(crate::proofs::Standing::kind_some, crate::proofs::Standing::kind_none))]
    pub fn string(&self, id: ObjectId) -> &[u8]
        ensures { (read : Reading) → result.now ≡ bytes_in (kind_at (objects_of read self.now) id.number) }
    {
        match self.objects.get(id.number) {
            Some(object) => object.content.bytes(),
            None => &[],
        }
    }

    /// The bytes of a value that is a String.
    pub fn text_of(&self, of: &Value) -> Option<&[u8]> {
        match *of {
            Value::Object(id) => self.text_at(id),
            _ => None,
        }
    }

    fn text_at(&self, id: ObjectId) -> Option<&[u8]> {
        match &self.object(id)?.content {
            Content::String(text) => Some(text.as_slice()),
            _ => None,
        }
    }

    /// Makes a Range.
    pub fn new_range(
        &mut self,
        first: i64,
        last: i64,
        exclusive: bool,
    ) -> Result<ObjectId, StoreFault>
        ensures { Makes range_cells (λ read. new_object (meant.span first last exclusive)) self.old result self.new }
    {
        let ends = Ends {
            first,
            last,
            exclusive,
        };
        self.make(3, Content::Range(ends), false)
    }

    /// The first and the last of a Range, and whether the last is left out.
    #[tactic(auto, using(crate::proofs::Standing::kind_some, crate::proofs::Standing::kind_none))]
    pub fn range(&self, id: ObjectId) -> (i64, i64, bool)
        ensures { (read : Reading) → result ≡ ends_in (kind_at (objects_of read self.now) id.number) }
    {
        match self.objects.get(id.number) {
            Some(object) => object.content.ends(),
            None => (0, 0, false),
        }
    }

    /// Makes a Proc.
    pub fn new_proc(&mut self, alloc: Global, row: ProcRow) -> Result<ObjectId, StoreFault>
        ensures { Makes proc_cells (λ read. new_object (meant.closed (read.closure_of row))) self.old result self.new }
    {
        let row = Box::new(alloc, row)?;
        self.make(2, Content::Proc(row), false)
    }

    /// What a Proc holds. Of what is no Proc this says nothing.
    pub fn proc_row(&self, id: ObjectId) -> ProcRow {
        if let Some(object) = self.object(id)
            && let Content::Proc(row) = &object.content
        {
            return **row;
        }
        ProcRow {
            unit: 0,
            id: 0,
            env: EnvId { number: 0 },
            receiver: Value::Nil,
            scope: 0,
            home: 0,
        }
    }

    /// Whether it is frozen: nil, true, false, Integers, Symbols and Strings always are.
    pub fn is_frozen(&self, of: &Value) -> bool {
        match *of {
            Value::Object(id) => self.is_frozen_at(id.number),
            Value::Class(class) => self.is_frozen_at(class.number),
            _ => true,
        }
    }

    fn is_frozen_at(&self, number: usize) -> bool {
        match self.objects.get(number) {
            Some(object) => object.frozen,
            None => false,
        }
    }

    /// Freezes it.
    pub fn freeze(&mut self, of: &Value) {
        let number = match *of {
            Value::Object(id) => id.number,
            Value::Class(class) => class.number,
            _ => return,
        };
        if let Some(object) = self.objects.get_mut(number) {
            object.frozen = true;
        }
    }

    /// Where it was thrown first.
    pub fn thrown_at(&self, id: ObjectId) -> Option<(Name, u64)> {
        match &self.object(id)?.extras {
            Some(extras) => match extras.thrown {
                Some(at) => Some((at.path, at.line)),
                None => None,
            },
            None => None,
        }
    }

    /// It is thrown here; where it was thrown first stays.
    pub fn set_thrown(
        &mut self,
        alloc: Global,
        id: ObjectId,
        path: Name,
        line: u64,
    ) -> Result<(), NoMemory> {
        match self.objects.get_mut(id.number) {
            Some(object) => object.set_thrown(alloc, Thrown { path, line }),
            None => Ok(()),
        }
    }
}

impl Object {
    /// It is thrown here, where it was not thrown before.
    fn set_thrown(&mut self, alloc: Global, at: Thrown) -> Result<(), NoMemory> {
        match &mut self.extras {
            Some(extras) => {
                if extras.thrown.is_none() {
                    extras.thrown = Some(at);
                }
            }
            None => {
                let extras = Extras {
                    variables: NameMap::new(alloc),
                    thrown: Some(at),
                };
                self.extras = Some(Box::new(alloc, extras)?);
            }
        }
        Ok(())
    }
}

/// What a String of so many bytes costs.
fn cells_of_string(len: u64) -> u64
    ensures { result ≡ string_cells len }
{
    1 + len / 16 + (len % 16 + 15) / 16
}

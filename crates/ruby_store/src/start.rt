//! The store of the start.
use crate::classes::OBJECT;
use crate::{ClassId, MethodRow, Store, StoreFault, Value};
use bs_outside::NoMemory;
use std::alloc::{AllocError, Global};
use store_values::native_rows;

/// A class of the start: its name, and the number of its superclass; a module has none.
struct StartClass {
    name: &'static str,
    is_module: bool,
    above: usize,
}

static START_CLASSES: [StartClass; 33] = [
    StartClass {
        name: "Object",
        is_module: false,
        above: 0,
    },
    StartClass {
        name: "Module",
        is_module: false,
        above: 0,
    },
    StartClass {
        name: "Class",
        is_module: false,
        above: 1,
    },
    StartClass {
        name: "NilClass",
        is_module: false,
        above: 0,
    },
    StartClass {
        name: "TrueClass",
        is_module: false,
        above: 0,
    },
    StartClass {
        name: "FalseClass",
        is_module: false,
        above: 0,
    },
    StartClass {
        name: "Integer",
        is_module: false,
        above: 0,
    },
    StartClass {
        name: "String",
        is_module: false,
        above: 0,
    },
    StartClass {
        name: "Symbol",
        is_module: false,
        above: 0,
    },
    StartClass {
        name: "Array",
        is_module: false,
        above: 0,
    },
    StartClass {
        name: "Hash",
        is_module: false,
        above: 0,
    },
    StartClass {
        name: "Range",
        is_module: false,
        above: 0,
    },
    StartClass {
        name: "Proc",
        is_module: false,
        above: 0,
    },
    StartClass {
        name: "Exception",
        is_module: false,
        above: 0,
    },
    StartClass {
        name: "StandardError",
        is_module: false,
        above: 13,
    },
    StartClass {
        name: "ScriptError",
        is_module: false,
        above: 13,
    },
    StartClass {
        name: "SystemExit",
        is_module: false,
        above: 13,
    },
    StartClass {
        name: "SystemStackError",
        is_module: false,
        above: 13,
    },
    StartClass {
        name: "LoadError",
        is_module: false,
        above: 15,
    },
    StartClass {
        name: "SyntaxError",
        is_module: false,
        above: 15,
    },
    StartClass {
        name: "ArgumentError",
        is_module: false,
        above: 14,
    },
    StartClass {
        name: "IndexError",
        is_module: false,
        above: 14,
    },
    StartClass {
        name: "LocalJumpError",
        is_module: false,
        above: 14,
    },
    StartClass {
        name: "NameError",
        is_module: false,
        above: 14,
    },
    StartClass {
        name: "RangeError",
        is_module: false,
        above: 14,
    },
    StartClass {
        name: "RuntimeError",
        is_module: false,
        above: 14,
    },
    StartClass {
        name: "TypeError",
        is_module: false,
        above: 14,
    },
    StartClass {
        name: "ZeroDivisionError",
        is_module: false,
        above: 14,
    },
    StartClass {
        name: "KeyError",
        is_module: false,
        above: 21,
    },
    StartClass {
        name: "NoMethodError",
        is_module: false,
        above: 23,
    },
    StartClass {
        name: "FrozenError",
        is_module: false,
        above: 25,
    },
    StartClass {
        name: "YAML",
        is_module: true,
        above: 0,
    },
    StartClass {
        name: "JSON",
        is_module: true,
        above: 0,
    },
];

impl Store {
    /// The store of the start: its classes with their natives, which take no cells.
    pub fn new(alloc: Global) -> Result<Store, NoMemory> {
        match Store::started(alloc) {
            Ok(store) => Ok(store),
            Err(_) => Err(AllocError),
        }
    }

    fn started(alloc: Global) -> Result<Store, StoreFault> {
        let mut store = Store::empty(alloc)?;
        for class in &START_CLASSES {
            store.start_class(alloc, class)?;
        }
        for row in native_rows() {
            let name = store.intern(alloc, row.name.as_bytes())?;
            let class = ClassId { number: row.class };
            let row_of = MethodRow::Native(row.native);
            if row.on_class {
                store.add_class_method(class, name, row_of)?;
            } else {
                store.add_method(class, name, row_of)?;
            }
        }
        store.cells = 0;
        Ok(store)
    }

    /// Adds a class, and its constant in Object.
    fn start_class(&mut self, alloc: Global, class: &StartClass) -> Result<(), StoreFault> {
        let name = self.intern(alloc, class.name.as_bytes())?;
        let above = if class.is_module || self.objects.is_empty() {
            None
        } else {
            Some(ClassId {
                number: class.above,
            })
        };
        let id = self.add_class(alloc, 0, name, class.is_module, above)?;
        self.set_constant(OBJECT, name, Value::Class(id))
    }
}

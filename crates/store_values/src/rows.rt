//! Rows of methods.
use crate::{EnvId, Native, Value};
use ruby_tree::Name;

/// What a method's name stands for.
#[derive(Clone, Copy, Drop)]
pub enum MethodRow {
    /// A body written in Ruby.
    Ruby {
        /// The unit of the body.
        unit: usize,
        /// The sequence of the body in its unit.
        id: usize,
        /// What the `def` fixed: the class or module that the row was added to, and the class bodies around, by a number of the machine's.
        scope: usize,
    },
    /// A native.
    Native(Native),
    /// The reader of a variable.
    Get(Name),
    /// The writer of a variable.
    Set(Name),
}

/// What a Proc holds.
#[derive(Clone, Copy, Drop)]
pub struct ProcRow {
    /// The unit of the block's body.
    pub unit: usize,
    /// The sequence of the body in its unit.
    pub id: usize,
    /// The environment that the block was made in.
    pub env: EnvId,
    /// The receiver there.
    pub receiver: Value,
    /// What the code around fixed, by a number of the machine's.
    pub scope: usize,
    /// What the block took from the frame that made it, by a number of the machine's.
    pub home: usize,
}

/// A name under which a native stands in a class.
#[derive(Clone, Copy, Drop)]
pub struct NativeRow {
    /// The number of the class.
    pub class: usize,
    /// Whether it is a class-method row.
    pub on_class: bool,
    /// The method's name.
    pub name: &'static str,
    /// What it stands for.
    pub native: Native,
}

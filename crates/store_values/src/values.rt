//! Values.
use crate::{ClassId, ObjectId};
use ruby_tree::Name;

/// A value.
#[derive(Clone, Copy, Debug, PartialEq, Eq, Drop)]
pub enum Value {
    /// `nil`.
    Nil,
    /// `true` and `false`.
    Bool(bool),
    /// An Integer.
    Int(i64),
    /// A Symbol, by its name in the store's table.
    Sym(Name),
    /// A class or a module.
    Class(ClassId),
    /// Another object.
    Object(ObjectId),
}

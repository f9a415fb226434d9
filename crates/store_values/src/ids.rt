//! The numbers of what a store holds.

/// A class or a module, by its place among the objects of a store.
#[derive(Clone, Copy, Debug, PartialEq, Eq, Hash, Drop)]
pub struct ClassId {
    /// The place, counted from 0.
    pub number: usize,
}

/// An object that is no class and no module, by its place among the objects of a store.
#[derive(Clone, Copy, Debug, PartialEq, Eq, Hash, Drop)]
pub struct ObjectId {
    /// The place, counted from 0.
    pub number: usize,
}

/// An environment of a store.
#[derive(Clone, Copy, Debug, PartialEq, Eq, Hash, Drop)]
pub struct EnvId {
    /// The number, counted from 0.
    pub number: usize,
}

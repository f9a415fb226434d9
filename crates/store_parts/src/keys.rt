//! Keys of Hashes.

/// What two keys of a Hash have in common exactly where they count as equal: the value of an Integer, a Symbol, a String, nil, true or false,
/// and the number of another object.
#[derive(Clone, Copy, PartialEq, Eq, Hash, Drop)]
pub enum Key {
    /// `nil`.
    Nil,
    /// `true` and `false`.
    Bool(bool),
    /// An Integer.
    Int(i64),
    /// A Symbol, by the number of its name.
    Sym(usize),
    /// A String, by the number of its text.
    Text(usize),
    /// Another object, by its number.
    Object(usize),
}

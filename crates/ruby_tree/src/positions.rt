//! Where nodes stand.

/// Where a node stands.
#[derive(Clone, Copy, Debug, PartialEq, Eq, Drop)]
pub struct SourcePosition {
    /// The line of its first token.
    pub first: u64,
    /// The line that its own code has.
    pub line: u64,
    /// The place of the token that begins its sequence.
    pub place: u64,
}

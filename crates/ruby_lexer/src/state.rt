//! What of the pieces before a place counts at it.

/// What the last token makes of a word.
#[derive(Clone, Copy)]
pub enum WordContext {
    /// Nothing.
    Plain,
    /// `.` or `&.` stands before it.
    Dot,
    /// `def` stands before it.
    Def,
}

/// What of the pieces before a place counts at it.
#[derive(Clone, Copy)]
pub struct State {
    /// What the last token makes of a word.
    pub before: WordContext,
    /// Whether a newline is no token here.
    pub joins: bool,
    /// Whether a blank stands behind the last token.
    pub blank: bool,
    /// In the code of a literal one more than the braces that are open, else 0.
    pub braces: u64,
}

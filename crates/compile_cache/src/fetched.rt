//! What a fetch gives.
use cache_key::Event;
use iseq_types::Unit;

/// What a fetch gives of a path.
#[derive(Drop)]
pub enum FetchResult {
    /// The file's unit.
    Whole(Unit),
    /// The file's text has no tree; this is the line of its fault.
    Fault { line: u64 },
    /// The file's text has a tree that is no small file, and cannot be compiled yet.
    NotYet,
    /// No file stands there.
    Gone,
}

/// What a fetch gives, and what its load came to: nothing where the cache is off or no file stands there.
#[derive(Drop)]
pub struct Fetched {
    pub event: Option<Event>,
    pub got: FetchResult,
}

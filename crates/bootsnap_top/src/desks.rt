//! Desks.

/// What one worker works at: its sight of the source tree, and its sight of the cache.
#[derive(Drop, Debug)]
pub struct Desk<T, S> {
    pub tree: T,
    pub shelf: S,
}

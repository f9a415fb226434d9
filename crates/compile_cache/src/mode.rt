//! How the cache is used.

/// Whether cache files are read and published.
#[derive(Clone, Copy, Debug, PartialEq, Eq)]
pub enum CacheUse {
    /// A cache file that is a hit is taken in place of its source, and a source that was compiled is published.
    On,
    /// No call of the shelf is made.
    Off,
}

/// How a file is fetched.
#[derive(Clone, Copy, Debug, PartialEq, Eq)]
pub struct Mode {
    pub cache: CacheUse,
}

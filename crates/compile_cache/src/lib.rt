//! Fetches compiled Ruby files through the cache.
#![tactic(auto)]

mod compiling;
mod fetch;
mod fetched;
mod mode;
mod shelf;
mod small_units;

pub use fetch::fetch_unit;
pub use fetched::{FetchResult, Fetched};
pub use mode::{CacheUse, Mode};

//! The outside: trees of files, shelves of cache files, inputs and sinks, as traits that may tell what they contain.
#![tactic(auto)]

mod faults;
mod images;
mod inputs;
mod maps;
mod names;
mod parts;
mod paths;
mod shelves;
mod sinks;
mod steps;
mod text;
mod trees;

pub use faults::{InputFault, ShelfFault, SinkFault, TreeFault};
pub use images::Image;
pub use inputs::Input;
pub use maps::TextMap;
pub use names::{CacheKind, CacheName, Loaded, Temp, is_same_name};
pub use parts::cut;
pub use paths::{PATH_LIMIT, is_normal_path, is_segment, normal, parent};
pub use shelves::Shelf;
pub use sinks::{Gathered, Sink, put_all};
pub use sqlite_items::{Boxed, Items};
pub use steps::Steps;
pub use text::{Bytes, NoMemory, Text, Texts};
pub use trees::{Item, Kind, Listed, Listing, Stat, Tree};

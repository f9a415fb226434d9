//! Names and keys of cache files, and what a look-up of one comes to.
#![tactic(auto)]

mod events;
mod fnv;
mod keys;
pub mod laws;
mod names;

pub use events::{Event, event_of};
pub use fnv::fnv1a;
pub use keys::key_of;
pub use names::{cache_name, name_text};

//! MessagePack values and their bytes: each value has one spelling, the shortest, and no spelling begins another.
//!
//! The format is the MessagePack specification's, with symbols as extensions of type 0, and without floats,
//! binary data and other extensions.
#![tactic(auto)]

mod decoding;
mod encoding;
mod heads;
pub mod laws;
mod live;
mod number;
mod reader;
mod stop;
mod used;
mod value;

pub use decoding::decode;
pub use encoding::encode;
pub use reader::Reader;
pub use stop::{Stop, Unread};
pub use value::{DataKind, Value};

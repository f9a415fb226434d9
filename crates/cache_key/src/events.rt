//! What a look-up comes to.
ghost use Rattle.std.specs.Prelude.{◌≡◌, ◌≤◌, List, ℕ, length, take};
ghost use Rattle.bs_outside.specs.History.{loaded_of};
ghost use Rattle.cache_key.specs.Key.{key_version, is_entry};
ghost use Rattle.cache_key.specs.Event.{is_digest, event_of_bytes, event_of_answer};

use crate::keys::{has_constants, number_at};
use bs_outside::{Image, Stat};

/// What a look-up comes to: nothing was found, the file's entry as it stands, an entry that is no longer the file's, or one whose contents are still the file's.
#[derive(Clone, Copy, Debug, PartialEq, Eq)]
pub enum Event {
    Miss,
    Hit,
    Stale,
    Revalidated,
}

/// The event of what a load found for a file with this stat. The digest of the contents is given where an entry of another time may count.
/// Of the image only the length and the key are looked at.
pub fn event_of(image: &Option<Image>, stat: &Stat, digest: Option<u64>) -> Event
    ensures { result ≡ event_of_answer (loaded_of image.now) stat.now digest }
{
    match image {
        Some(image) => match image.key() {
            Some(key) => event_of_key(&key, image.len(), stat, digest),
            None => Event::Stale,
        },
        None => Event::Miss,
    }
}

// Whether an image of this length with this key has the form of an entry.
fn is_entry(key: &[u8; 64], len: u64) -> bool
    requires { 64 ≤ len }
    ensures { (bytes : List ℕ) → key.now ≡ take 64 bytes → len ≡ length bytes → result ≡ is_entry key_version bytes }
{
    len - 64 == number_at(key, 32) && has_constants(key)
}

// The event of an image of this length with this key.
fn event_of_key(key: &[u8; 64], len: u64, stat: &Stat, digest: Option<u64>) -> Event
    requires { 64 ≤ len }
    ensures { (bytes : List ℕ) → key.now ≡ take 64 bytes → len ≡ length bytes → result ≡ event_of_bytes bytes stat.now digest }
{
    if !is_entry(key, len) || number_at(key, 16) != stat.size {
        return Event::Stale;
    }
    if number_at(key, 24) == stat.mtime {
        Event::Hit
    } else if is_digest(digest, number_at(key, 40)) {
        Event::Revalidated
    } else {
        Event::Stale
    }
}

fn is_digest(digest: Option<u64>, number: u64) -> bool
    ensures { result ≡ is_digest digest number }
{
    match digest {
        Some(digest) => number == digest,
        None => false,
    }
}

//! Names of cache files.
ghost use Rattle.std.specs.Prelude.{◌≡◌, ◌<◌, IsTrue, IfOk};
ghost use Rattle.cache_key.specs.Key.{is_hashed, cache_name_of, hex_digit, hex_of, name_text_of};

use crate::fnv1a;
use bs_outside::{CacheKind, CacheName, NoMemory, Text};
use std::alloc::Global;

/// The name of the cache file of the source at the path. There is one file of the load path, whose name is no hash.
pub fn cache_name(kind: CacheKind, path: &[u8]) -> CacheName
    requires { IsTrue (is_hashed kind) }
    ensures { result ≡ cache_name_of kind path.now }
{
    CacheName {
        kind,
        hash: fnv1a(path),
    }
}

fn hex_digit(digit: u8) -> u8
    requires { digit < 16 }
    ensures { result ≡ hex_digit digit }
{
    if digit < 10 { 48 + digit } else { 87 + digit }
}

// The sixteen digits of a hash, the highest first.
fn hex_digits(hash: u64) -> [u8; 16]
    ensures { result ≡ hex_of 16 hash }
{
    let mut digits = [0; 16];
    for place in 0..16 {
        digits[place] = hex_digit((hash >> (4 * (15 - place)) & 15) as u8);
    }
    digits
}

/// Where the cache file lies in the cache's folder, as `iseq/85/944171f73967e8`.
pub fn name_text(alloc: Global, name: &CacheName) -> Result<Text, NoMemory>
    ensures { IfOk result (λ text. text ≡ name_text_of name.now) }
{
    let folder = match name.kind {
        CacheKind::Iseq => b"iseq/",
        CacheKind::Yaml => b"yaml/",
        CacheKind::Json => b"json/",
        CacheKind::LoadPath => return Text::new(alloc, b"load-path-cache"),
    };
    let digits = hex_digits(name.hash);
    let mut text = Vec::from_slice(alloc, folder)?;
    text.extend_from_slice(&digits[..2])?;
    text.push(b'/')?;
    text.extend_from_slice(&digits[2..])?;
    Ok(Text::from_vec(text))
}

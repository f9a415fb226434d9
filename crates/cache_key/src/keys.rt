//! Keys of entries.
ghost use Rattle.std.specs.Prelude.{◌≡◌, ◌+◌, ◌≤◌, ◌++◌, take, drop};
ghost use Rattle.byteorder.specs.Endian.{little_bytes};
ghost use Rattle.cache_key.specs.Key.{key_version, key_bytes, number_at, has_constants};

use bs_outside::Stat;
use byteorder::{ByteOrder, LittleEndian};

// Version 5, platform 1, compile option 0 and revision 33, of four bytes each.
const HEAD: [u8; 16] = [5, 0, 0, 0, 1, 0, 0, 0, 0, 0, 0, 0, 33, 0, 0, 0];

// A digest is set, and fifteen bytes are left over.
const TAIL: [u8; 16] = [1, 0, 0, 0, 0, 0, 0, 0, 0, 0, 0, 0, 0, 0, 0, 0];

fn put_number(key: &mut [u8; 64], place: usize, number: u64)
    requires { place + 8 ≤ 64 }
    ensures { key.new ≡ take place key.old ++ (little_bytes 8 number ++ drop (place + 8) key.old) }
{
    LittleEndian::write_u64(&mut key[place..], number);
}

/// The key of the entry of a file with this stat and this digest of its contents, of which `data_size` bytes follow the key.
pub fn key_of(stat: &Stat, digest: u64, data_size: u64) -> [u8; 64]
    ensures { result ≡ key_bytes key_version (record { size = stat.now.size; mtime = stat.now.mtime; data_size = data_size; digest = digest }) }
{
    let mut key = [0; 64];
    key[..16].copy_from_slice(&HEAD);
    put_number(&mut key, 16, stat.size);
    put_number(&mut key, 24, stat.mtime);
    put_number(&mut key, 32, data_size);
    put_number(&mut key, 40, digest);
    key[48..].copy_from_slice(&TAIL);
    key
}

/// The number in the eight bytes from a place on.
pub(crate) fn number_at(key: &[u8; 64], place: usize) -> u64
    requires { place + 8 ≤ 64 }
    ensures { result ≡ number_at place key.now }
{
    LittleEndian::read_u64(&key[place..])
}

/// Whether all but the four numbers is what this project writes.
pub(crate) fn has_constants(key: &[u8; 64]) -> bool
    ensures { result ≡ has_constants key_version key.now }
{
    key[..16] == HEAD[..] && key[48..] == TAIL[..]
}

//! The hash of paths and contents.
ghost use Rattle.std.specs.Prelude.{◌≡◌};
ghost use Rattle.cache_key.specs.Fnv.{fnv1a_of};

const OFFSET_BASIS: u64 = 0xcbf2_9ce4_8422_2325;

const PRIME: u64 = 0x0000_0100_0000_01b3;

/// The FNV-1a hash of 64 bits, by the authors' description of Fowler, Noll and Vo's hash.
#[tactic(auto, unfolding(crate::specs::Fnv::fnv1a_of))]
pub fn fnv1a(bytes: &[u8]) -> u64
    ensures { result ≡ fnv1a_of bytes.now }
{
    let mut hash = OFFSET_BASIS;
    for byte in bytes {
        hash ^= u64::from(*byte);
        hash = hash.wrapping_mul(PRIME);
    }
    hash
}

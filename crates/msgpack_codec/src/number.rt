//! Numbers of a few bytes, the highest byte first.
ghost use Rattle.std.specs.Prelude.{◌≡◌, ◌/◌, ◌^◌, ◌≤◌, MatchResult};
ghost use Rattle.msgpack_codec.specs.Reading.{Found, Stopped, IsNumber};

use crate::stop::Stop;

/// Reads the last `size` bytes of a number from `low` to `high`, of which `front` was read.
pub(crate) fn read_number(
    bytes: &[u8],
    size: u32,
    front: u64,
    low: u64,
    high: u64,
) -> Result<(u64, &[u8]), Stop>
    requires size { size ≤ 8 }
    requires some { low ≤ high }
    requires above { low / 256 ^ size ≤ front }
    requires below { front ≤ high / 256 ^ size }
    ensures { MatchResult result
        (λ found. Found (IsNumber size front low high) found.0 bytes.now found.1.now)
        (λ e. Stopped (IsNumber size front low high) bytes.now e) }
{
    if size == 0 {
        return Ok((front, bytes));
    }
    let Some((first, rest)) = bytes.split_first() else {
        return Err(Stop::Short);
    };
    let front = 256 * front + *first as u64;
    let unit = 256u64.pow(size - 1);
    if front < low / unit || high / unit < front {
        return Err(Stop::Bad(bytes.len()));
    }
    read_number(rest, size - 1, front, low, high)
}

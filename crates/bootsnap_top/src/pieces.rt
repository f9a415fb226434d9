//! Pieces of output.
ghost use Rattle.std.specs.Prelude.{◌≡◌, ◌++◌, ◌∷◌, [], IfOk};
ghost use Rattle.std.specs.Fmt.{signed_decimal};

use bs_outside::{Bytes, NoMemory};
use std::alloc::Global;

/// The Integer in a line of its own.
pub fn value_line(alloc: Global, value: i64) -> Result<Bytes, NoMemory>
    ensures { IfOk result (λ line. line ≡ signed_decimal value ++ 10 ∷ []) }
{
    let line = format!(in alloc; "{value}\n")?;
    Ok(Bytes::from_vec(line.into_bytes()))
}

/// The text in a line of its own.
pub fn text_line(alloc: Global, text: &[u8]) -> Result<Bytes, NoMemory>
    ensures { IfOk result (λ line. line ≡ text.now ++ 10 ∷ []) }
{
    let mut line = Vec::from_slice(alloc, text)?;
    line.push(b'\n')?;
    Ok(Bytes::from_vec(line))
}

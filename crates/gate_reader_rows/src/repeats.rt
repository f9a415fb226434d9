//! Rows whose text repeats a part, as `repeat "START" "PART" COUNT "END"`.

use crate::escapes::unescaped;
use std::alloc::{AllocError, Global};

/// The text of such a row; none where the row has another form. A quote in a string stands there as `\u{22}`.
pub fn repeated(alloc: Global, row: &str) -> Result<Option<Vec<u8>>, AllocError> {
    let pieces: Vec<&str> = row.split('"').collect(alloc)?;
    let ["repeat ", start, " ", part, count, end, ""] = pieces.as_slice() else {
        return Ok(None);
    };
    let Ok(count) = count.trim().parse::<u32>() else {
        return Ok(None);
    };
    let mut text = Vec::new(alloc);
    put(alloc, &mut text, start, 1)?;
    put(alloc, &mut text, part, count)?;
    put(alloc, &mut text, end, 1)?;
    Ok(Some(text))
}

/// What a string holds, so many times more.
fn put(alloc: Global, text: &mut Vec<u8>, string: &str, count: u32) -> Result<(), AllocError> {
    let quoted = format!(in alloc; "\"{string}\"")?;
    if let Some(part) = unescaped(alloc, quoted.as_str())? {
        for _ in 0..count {
            text.extend_from_slice(part.as_bytes())?;
        }
    }
    Ok(())
}

//! Blanks, and the bytes that part and close lists and maps.
ghost use Rattle.std.specs.Prelude.{◌≡◌, ◌<◌, MatchResult};
ghost use Rattle.data_text.specs.Json.{is_blank, behind_blanks, DelimiterAt};
ghost use Rattle.data_text.specs.Reading.{Found, Stopped, TokenAt, WordAt};

use msgpack_codec::Stop;

fn is_blank(byte: u8) -> bool
    ensures { result ≡ is_blank byte }
{
    byte == b' ' || byte == b'\t' || byte == b'\n' || byte == b'\r'
}

/// The bytes behind the blanks at their front.
pub(crate) fn skip_blanks(bytes: &[u8]) -> &[u8]
    ensures { result.now ≡ behind_blanks bytes.now }
{
    let mut rest = bytes;
    while let Some((first, after)) = rest.split_first() {
        if !is_blank(*first) {
            break;
        }
        rest = after;
    }
    rest
}

/// Reads blanks and a comma, or blanks and the closing byte, which ends the list or the map.
pub(crate) fn delimiter(bytes: &[u8], close: u8) -> Result<(bool, &[u8]), Stop>
    requires { 57 < close }
    ensures { MatchResult result
        (λ found. Found (DelimiterAt close) found.0 bytes.now found.1.now)
        (λ e. Stopped (DelimiterAt close) bytes.now e) }
{
    let rest = skip_blanks(bytes);
    let Some((first, after)) = rest.split_first() else {
        return Err(Stop::Short);
    };
    if *first == close {
        return Ok((true, after));
    }
    if *first == b',' {
        return Ok((false, after));
    }
    Err(Stop::Bad(rest.len()))
}

/// Reads these bytes.
pub(crate) fn word<'a>(bytes: &'a [u8], word: &[u8]) -> Result<((), &'a [u8]), Stop>
    ensures { MatchResult result
        (λ found. Found (WordAt word.now) found.0 bytes.now found.1.now)
        (λ e. Stopped (WordAt word.now) bytes.now e) }
{
    let mut rest = bytes;
    for wanted in word {
        let Some((first, after)) = rest.split_first() else {
            return Err(Stop::Short);
        };
        if *first != *wanted {
            return Err(Stop::Bad(rest.len()));
        }
        rest = after;
    }
    Ok(((), rest))
}

/// Reads blanks and this byte.
pub(crate) fn token(bytes: &[u8], byte: u8) -> Result<((), &[u8]), Stop>
    requires { 32 < byte }
    ensures { MatchResult result
        (λ found. Found (TokenAt byte) found.0 bytes.now found.1.now)
        (λ e. Stopped (TokenAt byte) bytes.now e) }
{
    let rest = skip_blanks(bytes);
    let Some((first, after)) = rest.split_first() else {
        return Err(Stop::Short);
    };
    if *first != byte {
        return Err(Stop::Bad(rest.len()));
    }
    Ok(((), after))
}

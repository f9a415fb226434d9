//! Rows of RFC 8259, and of the rules that leave out fractions, exponents and deep texts.
use data_text::{DataError, read_json};
use msgpack_codec::Value;
use std::alloc::{AllocError, Global};
use std::test::Fail;

/// Puts a value behind the bytes: texts in `'`, and at most so many lists and maps in one another.
fn show(alloc: Global, out: &mut Vec<u8>, value: &Value, levels: u8) -> Result<(), AllocError> {
    match value {
        Value::Nil => out.extend_from_slice(b"nil"),
        Value::Bool(true) => out.extend_from_slice(b"true"),
        Value::Bool(false) => out.extend_from_slice(b"false"),
        Value::Int(number) => show_number(alloc, out, *number),
        Value::Str(text) => show_text(out, text.as_slice()),
        Value::Sym(_) => out.extend_from_slice(b"symbol"),
        Value::List(items) => {
            out.push(b'[')?;
            if levels > 0 {
                for item in items.as_slice() {
                    show(alloc, out, item, levels - 1)?;
                    out.push(b' ')?;
                }
            }
            out.push(b']')?;
            Ok(())
        }
        Value::Map(pairs) => {
            out.push(b'{')?;
            if levels > 0 {
                for pair in pairs.as_slice() {
                    show(alloc, out, &pair.0, 0)?;
                    out.push(b':')?;
                    show(alloc, out, &pair.1, levels - 1)?;
                    out.push(b' ')?;
                }
            }
            out.push(b'}')?;
            Ok(())
        }
    }
}

fn show_text(out: &mut Vec<u8>, bytes: &[u8]) -> Result<(), AllocError> {
    out.push(b'\'')?;
    out.extend_from_slice(bytes)?;
    out.push(b'\'')?;
    Ok(())
}

fn show_number(alloc: Global, out: &mut Vec<u8>, number: i64) -> Result<(), AllocError> {
    let text = format!(in alloc; "{number}")?;
    out.extend_from_slice(text.as_bytes())?;
    Ok(())
}

/// The value as it is shown, or `line` and the line of the fault.
fn told(alloc: Global, text: &[u8]) -> Result<Vec<u8>, AllocError> {
    let mut out = Vec::new(alloc);
    match read_json(alloc, text) {
        Ok(value) => show(alloc, &mut out, &value, 5)?,
        Err(DataError::Fault(fault)) => {
            let line = fault.line;
            let text = format!(in alloc; "line {line}")?;
            out.extend_from_slice(text.as_bytes())?;
        }
        Err(DataError::NoMemory) => return Err(AllocError),
    }
    Ok(out)
}

/// Each form of a value, blanks at each place, escapes, and keys that are repeated.
#[test]
fn texts_with_a_value(rt: HostRuntime) -> Result<(), Fail> {
    let rows: [(&[u8], &[u8]); 47] = [
        (b"null", b"nil"),
        (b"true", b"true"),
        (b"false", b"false"),
        (b"0", b"0"),
        (b"-0", b"0"),
        (b"7", b"7"),
        (b"-7", b"-7"),
        (b"10", b"10"),
        (b"1234567890", b"1234567890"),
        (b"9223372036854775807", b"9223372036854775807"),
        (b"-9223372036854775808", b"-9223372036854775808"),
        (b"\"\"", b"''"),
        (b"\"abc\"", b"'abc'"),
        (b"\" \"", b"' '"),
        (b"\"\\\"\\\\\\/\"", b"'\"\\/'"),
        (b"\"\\b\\f\\n\\r\\t\"", b"'\x08\x0c\n\r\t'"),
        (
            b"\"\\u0041\\u00e9\\u20AC\\uFFFF\"",
            b"'A\xc3\xa9\xe2\x82\xac\xef\xbf\xbf'",
        ),
        (b"\"\\u0000\"", b"'\x00'"),
        (b"\"a\\u0000b\"", b"'a\x00b'"),
        (b"\"\\ud83d\\ude00\"", b"'\xf0\x9f\x98\x80'"),
        (b"\"\\uD800\\uDC00\"", b"'\xf0\x90\x80\x80'"),
        (b"\"\\udbff\\udfff\"", b"'\xf4\x8f\xbf\xbf'"),
        (b"\"\\ud7ff\\ue000\"", b"'\xed\x9f\xbf\xee\x80\x80'"),
        (
            b"\"\xc3\xa9\xe2\x82\xac\xf0\x9f\x98\x80\"",
            b"'\xc3\xa9\xe2\x82\xac\xf0\x9f\x98\x80'",
        ),
        (b"\"\x7f\"", b"'\x7f'"),
        (b"[]", b"[]"),
        (b"[ ]", b"[]"),
        (b"[\t\n\r ]", b"[]"),
        (b"[1]", b"[1 ]"),
        (b"[1,2]", b"[1 2 ]"),
        (b"[ 1 , 2 ]", b"[1 2 ]"),
        (b"[[],[[]]]", b"[[] [[] ] ]"),
        (
            b"[null,true,false,0,\"\",[],{}]",
            b"[nil true false 0 '' [] {} ]",
        ),
        (b"{}", b"{}"),
        (b"{ }", b"{}"),
        (b"{\"a\":1}", b"{'a':1 }"),
        (b"{ \"a\" : 1 , \"b\" : [ ] }", b"{'a':1 'b':[] }"),
        (b"{\"\":{}}", b"{'':{} }"),
        (b"{\"a\":1,\"b\":2,\"a\":3}", b"{'a':3 'b':2 }"),
        (b"{\"a\":1,\"\\u0061\":2}", b"{'a':2 }"),
        (b"{\"b\":1,\"a\":2}", b"{'b':1 'a':2 }"),
        (b"{\"a\":{\"a\":1,\"a\":2},\"a\":3}", b"{'a':3 }"),
        (b" \t\r\n1 \t\r\n", b"1"),
        (b"\n[\n1\n,\n2\n]\n", b"[1 2 ]"),
        (b"{\"a\":\n1}", b"{'a':1 }"),
        (b"-1 ", b"-1"),
        (
            b"{\"name\":\"app\",\"ports\":[80,443],\"on\":true}",
            b"{'name':'app' 'ports':[80 443 ] 'on':true }",
        ),
    ];
    for (text, expected) in rows {
        let found = told(rt.alloc(), text)?;
        assert_eq!(rt; found.as_slice(), expected);
    }
    Ok(())
}

/// Cut texts, bad words, numbers, escapes and brackets, and what stands behind a value, with the lines of their faults.
#[test]
fn texts_without_a_value(rt: HostRuntime) -> Result<(), Fail> {
    let rows: [(&[u8], u64); 133] = [
        (b"{\"a\":1.5}", 1),
        (b"-00", 1),
        (b"-1.5", 1),
        (b"0.5", 1),
        (b"0e1", 1),
        (b"[1,\n-9223372036854775809", 2),
        (b"\"\\udc00\\udc00\"", 1),
        (b"-\n1", 1),
        (b"tru\ne", 1),
        (b"\"\\u00\n41\"", 1),
        (b"\"\\ud83d\n", 1),
        (b"[1 2,\n3,\nx", 1),
        (b"[x,\n}", 1),
        (b"[1,\n2 3,\n\"\x01\"\n", 2),
        (b"{\"a", 1),
        (b"{\"a\":1,\n\"b\"", 2),
        (b"[nul", 1),
        (b"", 1),
        (b" ", 1),
        (b"\n", 1),
        (b"\n\n", 2),
        (b"\n ", 2),
        (b"n", 1),
        (b"nul", 1),
        (b"tru", 1),
        (b"fals", 1),
        (b"-", 1),
        (b"\"", 1),
        (b"\"a", 1),
        (b"\"\\", 1),
        (b"\"\\u", 1),
        (b"\"\\u00", 1),
        (b"\"\\ud83d", 1),
        (b"\"\\ud83d\\", 1),
        (b"\"\\ud83d\\u", 1),
        (b"\"\\ud83d\\ude0", 1),
        (b"[", 1),
        (b"[1", 1),
        (b"[1,", 1),
        (b"[1,\n2", 2),
        (b"[\n1\n", 2),
        (b"[[]", 1),
        (b"{", 1),
        (b"{\"a\"", 1),
        (b"{\"a\":", 1),
        (b"{\"a\":1", 1),
        (b"{\"a\":1,", 1),
        (b"{\"a\":1,\n", 1),
        (b"{\n\"a\"\n:\n1\n", 4),
        (b"nulL", 1),
        (b"True", 1),
        (b"truE", 1),
        (b"nil", 1),
        (b"NaN", 1),
        (b"x", 1),
        (b"'a'", 1),
        (b"01", 1),
        (b"-01", 1),
        (b"00", 1),
        (b"+1", 1),
        (b".5", 1),
        (b"1.5", 1),
        (b"1.", 1),
        (b"1e3", 1),
        (b"1E3", 1),
        (b"-a", 1),
        (b"--1", 1),
        (b"0x1", 1),
        (b"9223372036854775808", 1),
        (b"-9223372036854775809", 1),
        (b"99999999999999999999999", 1),
        (b"[1,\n9223372036854775808\n]", 2),
        (b"\"\\a\"", 1),
        (b"\"\\u00g0\"", 1),
        (b"\"\\U0041\"", 1),
        (b"\"\\ud800\"", 1),
        (b"\"\\udc00\"", 1),
        (b"\"\\ud800\\ud800\"", 1),
        (b"\"\\ude00\\ud83d\"", 1),
        (b"\"\\ud83dx\"", 1),
        (b"\"\\ud83d\\n\"", 1),
        (b"\"\\ud83d\\u0041\"", 1),
        (b"\"\\uDFFF\"", 1),
        (b"\"\n\"", 1),
        (b"\"a\tb\"", 1),
        (b"\"\x00\"", 1),
        (b"\"\x1f\"", 1),
        (b"[\n\"\\x\"]", 2),
        (b"[1 2]", 1),
        (b"[1,]", 1),
        (b"[,1]", 1),
        (b"[,]", 1),
        (b"]", 1),
        (b"[}", 1),
        (b"[1}", 1),
        (b"{]", 1),
        (b"{\"a\"}", 1),
        (b"{\"a\",1}", 1),
        (b"{\"a\":}", 1),
        (b"{\"a\":1,}", 1),
        (b"{,}", 1),
        (b"{a:1}", 1),
        (b"{1:2}", 1),
        (b"{null:1}", 1),
        (b"{\"a\":1 \"b\":2}", 1),
        (b"{\"a\"::1}", 1),
        (b"[\"a\"5]", 1),
        (b"[1\n2]", 2),
        (b"{\"a\"\n1}", 2),
        (b"1 2", 1),
        (b"nullx", 1),
        (b"[] []", 1),
        (b"1,", 1),
        (b"1\n2", 2),
        (b"1\n\n\n]", 4),
        (b"{}\n{}", 2),
        (b"truefalse", 1),
        (b"\"a\"\"b\"", 1),
        (b"\x0b1", 1),
        (b"\x0c1", 1),
        (b"\xc2\xa01", 1),
        (b"1\n// note", 2),
        (b"/* */1", 1),
        (b"\xef\xbb\xbf1", 1),
        (b"\"\xff\"", 1),
        (b"\"\n\xff\"", 2),
        (b"x\n\"\xc3\"", 2),
        (b"\"a\"\n\n\xe2\x82", 3),
        (b"[\"\xed\xa0\x80\"]", 1),
        (b"\n\"\xc0\x80\"", 2),
        (b"[1,\n2,\n3,\n.", 4),
        (b"{\"a\":\n[\n1,\n2\n}\n}", 5),
        (b"\"a\"\n\n\n\"b\"\n\n", 4),
    ];
    for (text, line) in rows {
        let found = told(rt.alloc(), text)?;
        let expected = format!(in rt.alloc(); "line {line}")?;
        assert_eq!(rt; found.as_slice(), expected.as_bytes());
    }
    Ok(())
}

/// So many bytes, other bytes behind them, and so many of a third kind.
fn nested(
    alloc: Global,
    open: u8,
    depth: usize,
    inner: &[u8],
    close: u8,
) -> Result<Vec<u8>, AllocError> {
    let mut text = Vec::new(alloc);
    for _ in 0..depth {
        text.push(open)?;
    }
    text.extend_from_slice(inner)?;
    for _ in 0..depth {
        text.push(close)?;
    }
    Ok(text)
}

fn is_read(alloc: Global, text: &[u8]) -> bool {
    read_json(alloc, text).is_ok()
}

/// A hundred lists in one another, and one more; a text of 4,194,304 bytes, and of one more.
#[test]
fn texts_at_the_limits(rt: HostRuntime) -> Result<(), Fail> {
    let alloc = rt.alloc();
    assert!(rt; is_read(alloc, &nested(alloc, b'[', 100, b"", b']')?));
    assert!(rt; is_read(alloc, &nested(alloc, b'[', 99, b"{}", b']')?));
    assert!(rt; is_read(alloc, &nested(alloc, b'[', 100, b"1", b']')?));
    for text in [
        nested(alloc, b'[', 101, b"", b']')?,
        nested(alloc, b'[', 100, b"{}", b']')?,
        nested(alloc, b'[', 100_000, b"", b']')?,
    ] {
        assert_eq!(rt; told(alloc, &text)?.as_slice(), b"line 1".as_slice());
    }
    let deep = told(alloc, &nested(alloc, b'[', 100, b"\n[", b']')?)?;
    assert_eq!(rt; deep.as_slice(), b"line 2".as_slice());
    assert!(rt; is_read(alloc, &nested(alloc, b' ', 2_097_151, b"12", b' ')?));
    let long = told(alloc, &nested(alloc, b'\n', 2_097_151, b"123", b'\n')?)?;
    assert_eq!(rt; long.as_slice(), b"line 1".as_slice());
    Ok(())
}

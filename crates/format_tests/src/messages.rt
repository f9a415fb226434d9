//! Rows of the MessagePack specification, and of the rules that leave a value one spelling.
ghost use Rattle.std.specs.Prelude.{◌≡◌, ◌≤◌, ◌<◌, length, IfOk};
ghost use Rattle.msgpack_codec.specs.Message.{IsSpellable};

use bs_outside::{Bytes, Image, Steps};
use msgpack_codec::{Reader, Unread, Value, decode, encode};
use std::alloc::{AllocError, Global};
use std::marker::Brand;
use std::sync::ledger::{Blank, Ledger};
use std::test::Fail;

/// What a reading answers: the kind of the value, its number or its length, and whether it is spelled as it was.
#[derive(Clone, Copy, PartialEq, Eq, Debug)]
enum Told {
    Nil,
    Bool(bool),
    Int(i64),
    Str(usize),
    Sym(usize),
    List(usize),
    Map(usize),
    Short,
    Malformed(usize),
    Other,
}

/// What the reading of these bytes tells.
fn tell(alloc: Global, read: Result<Value, Unread>, bytes: &[u8]) -> Result<Told, AllocError>
    requires { IfOk read (λ value. IsSpellable value) }
{
    match read {
        Ok(value) => {
            let again = encode(alloc, &value)?;
            if again.as_slice() != bytes {
                return Ok(Told::Other);
            }
            Ok(told_of(&value))
        }
        Err(Unread::Short) => Ok(Told::Short),
        Err(Unread::Malformed { at }) => Ok(Told::Malformed(at)),
        Err(Unread::NoMemory) => Err(AllocError),
    }
}

fn reading_of(alloc: Global, bytes: &[u8]) -> Result<Told, AllocError> {
    tell(alloc, decode(alloc, bytes), bytes)
}

fn told_of(value: &Value) -> Told {
    match value {
        Value::Nil => Told::Nil,
        Value::Bool(truth) => Told::Bool(*truth),
        Value::Int(number) => Told::Int(*number),
        Value::Str(text) => Told::Str(text.len()),
        Value::Sym(name) => Told::Sym(name.len()),
        Value::List(items) => Told::List(items.len()),
        Value::Map(pairs) => Told::Map(pairs.len()),
    }
}

/// Each value at an edge of its form, and each form of a number that a shorter one spells.
#[test]
fn scalars_and_faults(rt: HostRuntime) -> Result<(), Fail> {
    let rows: [(&[u8], Told); 70] = [
        (&[0xc0], Told::Nil),
        (&[0xc2], Told::Bool(false)),
        (&[0xc3], Told::Bool(true)),
        (&[0x00], Told::Int(0)),
        (&[0x7f], Told::Int(127)),
        (&[0xcc, 0x80], Told::Int(128)),
        (&[0xcc, 0xff], Told::Int(255)),
        (&[0xcd, 0x01, 0x00], Told::Int(256)),
        (&[0xcd, 0xff, 0xff], Told::Int(65535)),
        (&[0xce, 0x00, 0x01, 0x00, 0x00], Told::Int(65536)),
        (&[0xce, 0xff, 0xff, 0xff, 0xff], Told::Int(4294967295)),
        (&[0xcf, 0, 0, 0, 1, 0, 0, 0, 0], Told::Int(4294967296)),
        (
            &[0xcf, 0x7f, 0xff, 0xff, 0xff, 0xff, 0xff, 0xff, 0xff],
            Told::Int(i64::MAX),
        ),
        (&[0xff], Told::Int(-1)),
        (&[0xe0], Told::Int(-32)),
        (&[0xd0, 0xdf], Told::Int(-33)),
        (&[0xd0, 0x80], Told::Int(-128)),
        (&[0xd1, 0xff, 0x7f], Told::Int(-129)),
        (&[0xd1, 0x80, 0x00], Told::Int(-32768)),
        (&[0xd2, 0xff, 0xff, 0x7f, 0xff], Told::Int(-32769)),
        (&[0xd2, 0x80, 0x00, 0x00, 0x00], Told::Int(-2147483648)),
        (
            &[0xd3, 0xff, 0xff, 0xff, 0xff, 0x7f, 0xff, 0xff, 0xff],
            Told::Int(-2147483649),
        ),
        (&[0xd3, 0x80, 0, 0, 0, 0, 0, 0, 0], Told::Int(i64::MIN)),
        // Longer forms stop at the first byte that no number of the form has there.
        (&[0xcc, 0x05], Told::Malformed(1)),
        (&[0xcc, 0x7f], Told::Malformed(1)),
        (&[0xcd, 0x00, 0xff], Told::Malformed(1)),
        (&[0xce, 0x00, 0x00, 0xff, 0xff], Told::Malformed(2)),
        (
            &[0xcf, 0, 0, 0, 0, 0xff, 0xff, 0xff, 0xff],
            Told::Malformed(4),
        ),
        (&[0xcf, 0x80, 0, 0, 0, 0, 0, 0, 0], Told::Malformed(1)),
        (&[0xd0, 0xe0], Told::Malformed(1)),
        (&[0xd0, 0x7f], Told::Malformed(1)),
        (&[0xd1, 0xff, 0x80], Told::Malformed(2)),
        (&[0xd1, 0x7f, 0xff], Told::Malformed(1)),
        (&[0xd2, 0xff, 0xff, 0x80, 0x00], Told::Malformed(3)),
        (
            &[0xd3, 0xff, 0xff, 0xff, 0xff, 0x80, 0, 0, 0],
            Told::Malformed(5),
        ),
        (
            &[0xd3, 0x7f, 0xff, 0xff, 0xff, 0xff, 0xff, 0xff, 0xff],
            Told::Malformed(1),
        ),
        (&[0xd9, 0x1f], Told::Malformed(1)),
        (&[0xda, 0x00, 0xff], Told::Malformed(1)),
        (&[0xdb, 0x00, 0x00, 0xff, 0xff], Told::Malformed(2)),
        (&[0xdc, 0x00, 0x0f], Told::Malformed(2)),
        (&[0xdd, 0x00, 0x00, 0xff, 0xff], Told::Malformed(2)),
        (&[0xde, 0x00, 0x0f], Told::Malformed(2)),
        (&[0xdf, 0x00, 0x00, 0xff, 0xff], Told::Malformed(2)),
        // Symbols of 1, 2, 4, 8 and 16 bytes have first bytes of their own, and the type is 0.
        (&[0xd4, 0x00, 0x73], Told::Sym(1)),
        (&[0xc7, 0x01, 0x00, 0x73], Told::Malformed(1)),
        (&[0xc7, 0x10], Told::Malformed(1)),
        (&[0xc8, 0x00, 0xff], Told::Malformed(1)),
        (&[0xc9, 0x00, 0x00, 0xff, 0xff], Told::Malformed(2)),
        (&[0xd4, 0x01, 0x73], Told::Malformed(1)),
        (&[0xc7, 0x03, 0x05], Told::Malformed(2)),
        // Floats, binary data, and what the specification never uses.
        (&[0xc1], Told::Malformed(0)),
        (&[0xc4, 0x00], Told::Malformed(0)),
        (&[0xca, 0, 0, 0, 0], Told::Malformed(0)),
        (&[0xcb], Told::Malformed(0)),
        // What is cut off, and what goes on.
        (&[], Told::Short),
        (&[0x92, 0x01], Told::Short),
        (&[0xdd, 0xff, 0xff, 0xff, 0xff], Told::Short),
        (&[0xdb, 0xff, 0xff, 0xff, 0xff, 0x61], Told::Short),
        (&[0xc9, 0xff, 0xff, 0xff, 0xff, 0x00], Told::Short),
        (&[0xdf, 0xff, 0xff, 0xff, 0xff, 0xc0, 0xc0], Told::Short),
        (&[0xc0, 0xc0], Told::Malformed(1)),
        (&[0x91, 0xc0, 0xc0], Told::Malformed(2)),
        // Keys: no list, no map, none twice.
        (&[0x81, 0xa1, 0x61, 0x93, 0x01, 0xff, 0xc0], Told::Map(1)),
        (
            &[0x81, 0xa1, 0x61, 0x92, 0x01, 0xd4, 0x00, 0x73],
            Told::Map(1),
        ),
        (&[0x81, 0x90, 0xc0], Told::Malformed(1)),
        (&[0x81, 0xde, 0x00], Told::Malformed(1)),
        (&[0x82, 0x01, 0xc0, 0x01, 0xc0], Told::Malformed(3)),
        (&[0x82, 0xa1, 0x61, 0xc0, 0xa1, 0x61], Told::Malformed(5)),
        (&[0x82, 0xa1, 0x61, 0xc0, 0xa1, 0x62, 0xc0], Told::Map(2)),
        (
            &[0x82, 0xa1, 0x61, 0xc0, 0xd4, 0x00, 0x61, 0xc0],
            Told::Map(2),
        ),
    ];
    for (bytes, want) in rows {
        assert_eq!(rt; reading_of(rt.alloc(), bytes)?, want, "{bytes:?}");
    }
    Ok(())
}

fn length_of(told: Told) -> usize {
    match told {
        Told::Str(length) | Told::Sym(length) | Told::List(length) => length,
        _ => 0,
    }
}

/// A head, and so many equal bytes.
fn filled(alloc: Global, head: &[u8], count: usize, byte: u8) -> Result<Vec<u8>, AllocError> {
    let mut bytes = Vec::from_slice(alloc, head)?;
    for _ in 0..count {
        bytes.push(byte)?;
    }
    Ok(bytes)
}

/// A head, and so many pairs of an integer of the form ce, from 65536 on, with nil.
fn keyed(alloc: Global, head: &[u8], count: usize) -> Result<Vec<u8>, AllocError> {
    let mut bytes = Vec::from_slice(alloc, head)?;
    for key in 0..count {
        let number = (key % 0x1_0000_0000 + 0x1_0000) % 0x1_0000_0000;
        bytes.push(0xce)?;
        bytes.extend_from_slice(&(number as u32).to_be_bytes())?;
        bytes.push(0xc0)?;
    }
    Ok(bytes)
}

/// Each form of a length at its edges.
#[test]
fn lengths(rt: HostRuntime) -> Result<(), Fail> {
    let alloc = rt.alloc();
    let rows: [(&[u8], u8, Told); 28] = [
        (&[0xa0], 0x80, Told::Str(0)),
        (&[0xaf], 0x80, Told::Str(15)),
        (&[0xb0], 0x80, Told::Str(16)),
        (&[0xbf], 0x80, Told::Str(31)),
        (&[0xd9, 0x20], 0x80, Told::Str(32)),
        (&[0xd9, 0xff], 0x80, Told::Str(255)),
        (&[0xda, 0x01, 0x00], 0x80, Told::Str(256)),
        (&[0xda, 0xff, 0xff], 0x80, Told::Str(65535)),
        (&[0xdb, 0x00, 0x01, 0x00, 0x00], 0x80, Told::Str(65536)),
        (&[0xdb, 0x00, 0x01, 0x00, 0x01], 0x80, Told::Str(65537)),
        (&[0xc7, 0x00, 0x00], 0x61, Told::Sym(0)),
        (&[0xd4, 0x00], 0x61, Told::Sym(1)),
        (&[0xd5, 0x00], 0x61, Told::Sym(2)),
        (&[0xc7, 0x03, 0x00], 0x61, Told::Sym(3)),
        (&[0xd6, 0x00], 0x61, Told::Sym(4)),
        (&[0xd7, 0x00], 0x61, Told::Sym(8)),
        (&[0xc7, 0x0f, 0x00], 0x61, Told::Sym(15)),
        (&[0xd8, 0x00], 0x61, Told::Sym(16)),
        (&[0xc7, 0x11, 0x00], 0x61, Told::Sym(17)),
        (&[0xc7, 0xff, 0x00], 0x61, Told::Sym(255)),
        (&[0xc8, 0x01, 0x00, 0x00], 0x61, Told::Sym(256)),
        (&[0xc8, 0xff, 0xff, 0x00], 0x61, Told::Sym(65535)),
        (
            &[0xc9, 0x00, 0x01, 0x00, 0x00, 0x00],
            0x61,
            Told::Sym(65536),
        ),
        (&[0x90], 0xc0, Told::List(0)),
        (&[0x9f], 0xc0, Told::List(15)),
        (&[0xdc, 0x00, 0x10], 0xc0, Told::List(16)),
        (&[0xdc, 0xff, 0xff], 0xc0, Told::List(65535)),
        (&[0xdd, 0x00, 0x01, 0x00, 0x00], 0xc0, Told::List(65536)),
    ];
    for (head, byte, want) in rows {
        let bytes = filled(alloc, head, length_of(want), byte)?;
        assert_eq!(rt; reading_of(alloc, bytes.as_slice())?, want);
    }
    let maps: [(&[u8], usize); 6] = [
        (&[0x80], 0),
        (&[0x8f], 15),
        (&[0xde, 0x00, 0x10], 16),
        (&[0xde, 0xff, 0xff], 65535),
        (&[0xdf, 0x00, 0x01, 0x00, 0x00], 65536),
        (&[0xdf, 0x00, 0x01, 0x86, 0xa0], 100000),
    ];
    for (head, count) in maps {
        let bytes = keyed(alloc, head, count)?;
        assert_eq!(rt; reading_of(alloc, bytes.as_slice())?, Told::Map(count));
    }
    Ok(())
}

/// At most 100 lists and maps stand in one another.
#[test]
fn nesting(rt: HostRuntime) -> Result<(), Fail> {
    let alloc = rt.alloc();
    let rows: [(usize, &[u8], Told); 5] = [
        (100, &[], Told::Short),
        (100, &[0xc0], Told::List(1)),
        (99, &[0x80], Told::List(1)),
        (100, &[0x80], Told::Malformed(100)),
        (200, &[], Told::Malformed(100)),
    ];
    for (depth, inner, want) in rows {
        let mut bytes = filled(alloc, &[], depth, 0x91)?;
        bytes.extend_from_slice(inner)?;
        assert_eq!(rt;
            reading_of(alloc, bytes.as_slice())?,
            want,
            "{depth} {inner:?}"
        );
    }
    Ok(())
}

/// A message with a part of every kind: each proper prefix is cut off, and one byte changed is found where it stands.
#[test]
fn prefixes_and_changes(rt: HostRuntime) -> Result<(), Fail> {
    let alloc = rt.alloc();
    let whole: [u8; 48] = [
        0xdc, 0x00, 0x10, 0xc0, 0xc2, 0xc3, 0x05, 0xff, 0xcc, 0x80, 0xcd, 0x01, 0x00, 0xd0, 0x80,
        0xa3, 0x61, 0x62, 0x63, 0xd4, 0x00, 0x73, 0xc7, 0x03, 0x00, 0x61, 0x62, 0x63, 0x83, 0x01,
        0x90, 0xa1, 0x01, 0x80, 0xd4, 0x00, 0x01, 0xc0, 0x91, 0x91, 0x90, 0xa0, 0xce, 0x00, 0x01,
        0x00, 0x00, 0x00,
    ];
    assert_eq!(rt; reading_of(alloc, &whole)?, Told::List(16));
    for end in 0..whole.len() {
        let front = whole.get(..end).unwrap_or(&[]);
        assert_eq!(rt; reading_of(alloc, front)?, Told::Short, "{end}");
    }
    let changes: [(usize, u8, usize); 20] = [
        (0, 0xc1, 0),
        (0, 0xde, 38),
        (2, 0x0f, 2),
        (3, 0xc1, 3),
        (4, 0xca, 4),
        (7, 0xc4, 7),
        (9, 0x7f, 9),
        (11, 0x00, 11),
        (14, 0xe0, 14),
        (20, 0x01, 20),
        (23, 0x08, 23),
        (24, 0x01, 24),
        (29, 0x90, 29),
        (31, 0x01, 31),
        (34, 0x82, 34),
        (34, 0xa1, 47),
        (38, 0x90, 47),
        (42, 0xd2, 43),
        (44, 0x00, 44),
        (47, 0xcb, 47),
    ];
    for (place, byte, at) in changes {
        let mut bytes = whole;
        if let Some(changed) = bytes.get_mut(place) {
            *changed = byte;
        }
        let got = reading_of(alloc, &bytes)?;
        assert_eq!(rt; got, Told::Malformed(at), "{place} {byte}");
    }
    Ok(())
}

/// A map of 16 bits of count with these pairs of keys and nil, and the first bytes of one more key.
fn used_up(
    alloc: Global,
    keys: &[&[u8]],
    from: u8,
    past: u32,
    last: &[u8],
) -> Result<Vec<u8>, AllocError> {
    let mut bytes = Vec::from_slice(alloc, &[0xde, 0xff, 0xff])?;
    for front in keys {
        for byte in from as u32..past {
            bytes.extend_from_slice(front)?;
            bytes.push((byte % 256) as u8)?;
            bytes.push(0xc0)?;
        }
    }
    bytes.extend_from_slice(last)?;
    Ok(bytes)
}

/// Where each key that begins so is used, the first byte that leaves no other key is the place.
#[test]
fn used_up_keys(rt: HostRuntime) -> Result<(), Fail> {
    let alloc = rt.alloc();
    let rows: [(&[&[u8]], u8, u32, &[u8], Told); 11] = [
        // 128 integers of the form cc: cc begins no other.
        (&[&[0xcc]], 0x80, 256, &[0xcc], Told::Malformed(387)),
        (&[&[0xcc]], 0x80, 256, &[0xcc, 0x90], Told::Malformed(387)),
        (&[&[0xcc]], 0x80, 256, &[0xcc, 0x05], Told::Malformed(387)),
        (&[&[0xcc]], 0x80, 255, &[0xcc], Told::Short),
        (&[&[0xcc]], 0x80, 255, &[0xcc, 0x90], Told::Malformed(385)),
        // 256 texts of one byte.
        (&[&[0xa1]], 0x00, 256, &[0xa1], Told::Malformed(771)),
        (&[&[0xa1]], 0x00, 255, &[0xa1], Told::Short),
        // 256 symbols of one byte: d4 begins no other, of any type.
        (
            &[&[0xd4, 0x00]],
            0x00,
            256,
            &[0xd4, 0x00, 0x07],
            Told::Malformed(1027),
        ),
        // Texts of two bytes, the first of them 0: another first byte begins another.
        (
            &[&[0xa2, 0x00]],
            0x00,
            256,
            &[0xa2, 0x00],
            Told::Malformed(1028),
        ),
        (&[&[0xa2, 0x00]], 0x00, 256, &[0xa2], Told::Short),
        // Integers of the form cd that begin with 01, all used, and one with 02.
        (
            &[&[0xcd, 0x01]],
            0x00,
            256,
            &[0xcd, 0x02, 0x00, 0xc0, 0xcd, 0x01, 0x33],
            Told::Malformed(1032),
        ),
    ];
    for (keys, from, past, last, want) in rows {
        let bytes = used_up(alloc, keys, from, past, last)?;
        assert_eq!(rt; reading_of(alloc, bytes.as_slice())?, want, "{last:?}");
    }
    // The empty symbol is the only one of its length.
    let empty: [u8; 9] = [0x82, 0xc7, 0x00, 0x00, 0xc0, 0xc7, 0x00, 0x00, 0xc0];
    assert_eq!(rt; reading_of(alloc, &empty)?, Told::Malformed(6));
    // A key twice among many: each number with these first two of its four bytes is used.
    let mut many = keyed(alloc, &[0xdf, 0x00, 0x01, 0x86, 0xa1], 100000)?;
    many.extend_from_slice(&[0xce, 0x00, 0x01, 0x00, 0x07])?;
    assert_eq!(rt;
        reading_of(alloc, many.as_slice())?,
        Told::Malformed(600007)
    );
    Ok(())
}

/// What a reader tells from this place on, where these bytes are left, and how many bytes it took.
fn read_from<L: Ledger>(
    alloc: Global,
    blank: Blank,
    bytes: &[u8],
    from: u64,
    left: &[u8],
) -> Result<(Told, u64), AllocError>
    requires name { blank.name ≡ L.name }
    requires parts { blank.parts ≡ L.parts }
    requires some { 0 < L.parts }
    requires from { from ≤ length bytes.now }
{
    let mut steps = Steps::<L>::new(blank);
    let mut reader = Reader::new(Image::new(Bytes::new(alloc, bytes)?), from);
    let read = reader.value(alloc, &mut steps);
    Ok((tell(alloc, read, left)?, steps.taken()))
}

/// What a reader tells of these bytes behind one more.
fn read_behind(alloc: Global, bytes: &[u8]) -> Result<(Told, u64), AllocError> {
    let mut behind = Vec::from_slice(alloc, &[0xc1])?;
    behind.extend_from_slice(bytes)?;
    read_from::<Brand>(alloc, Blank::new(1), behind.as_slice(), 1, bytes)
}

/// A reader takes each byte left once.
#[test]
fn readers(rt: HostRuntime) -> Result<(), Fail> {
    let rows: [(&[u8], Told); 4] = [
        (&[], Told::Short),
        (&[0x92, 0x01], Told::Short),
        (&[0xcc, 0x05], Told::Malformed(1)),
        (
            &[0x81, 0xa1, 0x61, 0x92, 0x01, 0xd4, 0x00, 0x73],
            Told::Map(1),
        ),
    ];
    for (bytes, want) in rows {
        let (found, taken) = read_behind(rt.alloc(), bytes)?;
        assert_eq!(rt; found, want, "{bytes:?}");
        assert_eq!(rt; taken, bytes.len() as u64);
    }
    Ok(())
}

/// Whether it is the map that has "a" with the list of 1, -1 and nil.
fn is_map_of_list(value: &Value) -> bool {
    let Value::Map(pairs) = value else {
        return false;
    };
    let [(Value::Str(key), Value::List(items))] = pairs.as_slice() else {
        return false;
    };
    key.as_slice() == b"a".as_slice()
        && matches!(
            items.as_slice(),
            [Value::Int(1), Value::Int(-1), Value::Nil]
        )
}

/// A value part by part.
#[test]
fn a_map_of_a_list(rt: HostRuntime) -> Result<(), Fail> {
    let value = decode(rt.alloc(), &[0x81, 0xa1, 0x61, 0x93, 0x01, 0xff, 0xc0])?;
    assert!(rt; is_map_of_list(&value));
    Ok(())
}

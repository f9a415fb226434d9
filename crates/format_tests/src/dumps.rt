//! The dump of the empty file, and of a unit with every kind of sequence, row and instruction.
ghost use Rattle.std.specs.Prelude.{◌≡◌, ◌<◌, IfOk, IfSome};
ghost use Rattle.iseq_dump.specs.Dump.{CanBeDumped};

use bs_outside::{Bytes, Image, Steps};
use iseq_dump::{dump, laws, load_all, read_body, read_head};
use iseq_types::{Instr, Literal, SeqKind, Unit};
use std::alloc::{AllocError, Global};
use std::marker::Brand;
use std::sync::ledger::{Blank, Ledger};
use std::test::Fail;

/// The dump of the empty file `/e.rb`.
const EMPTY: &[u8] = &[
    0x59, 0x53, 0x51, 0x01, 0x05, 0x2f, 0x65, 0x2e, 0x72, 0x62, 0x01, 0x00, 0, 0, 0, 0, 0, 0, 0, 0,
    0, 0, 0, 0, 0, 0, 0, 0, 0x2c, 0, 0, 0, 0, 0, 0, 0, 0x0c, 0, 0, 0, 0, 0, 0, 0, 0x00, 0x01, 0x00,
    0x00, 0x00, 0x00, 0x00, 0x02, 0x01, 0x07, 0x01, 0x24,
];

/// The header.
const ALL_HEAD: &[u8] = &[
    89, 83, 81, 1, // the mark
    7, 47, 97, 108, 108, 46, 114, 98, // the path
    6, // so many rows
];

/// The index: kind, parent, locals, place and length.
const ALL_INDEX: &[(u8, [u64; 4])] = &[
    (0, [0, 1, 211, 216]),
    (1, [0, 4, 427, 30]),
    (2, [0, 0, 457, 16]),
    (3, [0, 0, 473, 15]),
    (4, [0, 0, 488, 12]),
    (5, [0, 0, 500, 13]),
];

const FILE: &[u8] = &[
    0, // name
    1, // first line
    1, 1, 120, // locals
    0, // required
    0, // entries
    0, // flags
    4, // rows
    0, 0, 1, 2, 0, 4, // rescue from 0 to 1, cont 2, sp 0, sequence 4
    1, 0, 1, 2, 0, 5, // ensure from 0 to 1, cont 2, sp 0, sequence 5
    2, 0, 1, 2, 0, 0, // break from 0 to 1, cont 2, sp 0, sequence 0
    3, 0, 1, 2, 0, 0, // next from 0 to 1, cont 2, sp 0, sequence 0
    43, // instructions
    100, 0, // nop
    101, 7, // putnil
    102, 2, // dup
    103, 3, // swap
    104, 4, 1, // topn 1
    105, 5, 2, // setn 2
    106, 6, 2, // adjuststack 2
    107, 1, // pop
    108, 8, // putself
    109, 9, 1, // putobject true
    110, 10, 1, 115, // putstring "s"
    111, 22, 2, // concatstrings 2
    112, 23, // objtostring
    113, 24, // anytostring
    114, 12, 0, 0, // setlocal 0 0
    115, 11, 0, 0, // getlocal 0 0
    116, 14, 2, 64, 97, // setinstancevariable "@a"
    117, 13, 2, 64, 97, // getinstancevariable "@a"
    118, 16, 2, 36, 103, // setglobal "$g"
    119, 15, 2, 36, 103, // getglobal "$g"
    120, 17, 1, 67, // setconstant "C"
    121, 18, 0, 2, 1, 67, 1, 68, // opt_getconstant_path 0 "C" "D"
    122, 19, 1, 1, 0, // newarray 1, the first spread
    123, 9, 3, 255, 255, 255, 255, 255, 255, 255, 255, 255, 1, // putobject -2^63
    124, 20, 2, // newhash 2
    125, 9, 4, 1, 121, // putobject :y
    126, 21, 1, // newrange 1
    127, 9, 2, // putobject false
    128, 1, 25, 1, 109, 1, 1, 0, 1, 4, // send "m" 1, the first spread, flags 1, block 3
    129, 1, 37, 2, // expandarray 2
    130, 1, 30, // checkmatch
    131, 1, 32, 32, // branchif 32
    132, 1, 28, 1, 109, 2, 1, // definemethod "m" 1 of self
    133, 1, 9, 3, 216, 4, // putobject 300
    134, 1, 29, 1, 75, 3, 0, // defineclass "K" 2, a class
    135, 1, 33, 36, // branchunless 36
    136, 1, 8, // putself
    137, 1, 26, 0, 0, 0, 0, // invokesuper 0
    138, 1, 34, 39, // branchnil 39
    139, 1, 7, // putnil
    140, 1, 27, 1, 1, 0, // invokeblock 1, the first spread
    141, 1, 31, 42, // jump 42
    142, 1, 36, // leave
];

const METHOD: &[u8] = &[
    1, 109, // name
    200, 1, // first line
    4, 1, 97, 1, 98, 1, 99, 1, 100, // locals
    1, // required
    2, 0, 1, // entries
    3, // flags
    0, // rows
    3, // instructions
    200, 1, 0, // nop
    200, 1, 7, // putnil
    201, 1, 35, 1, // throw 1
];

const CLASS: &[u8] = &[
    1, 75, // name
    172, 2, // first line
    0, // locals
    0, // required
    0, // entries
    0, // flags
    0, // rows
    2, // instructions
    172, 2, 7, // putnil
    172, 2, 36, // leave
];

const BLOCK: &[u8] = &[
    0, // name
    144, 3, // first line
    0, // locals
    0, // required
    0, // entries
    0, // flags
    0, // rows
    2, // instructions
    144, 3, 7, // putnil
    144, 3, 36, // leave
];

const RESCUE: &[u8] = &[
    0, // name
    244, 3, // first line
    0, // locals
    0, // required
    0, // entries
    0, // flags
    0, // rows
    1, // instructions
    244, 3, 36, // leave
];

const ENSURE: &[u8] = &[
    0, // name
    216, 4, // first line
    0, // locals
    0, // required
    0, // entries
    0, // flags
    0, // rows
    1, // instructions
    216, 4, 35, 0, // throw 0
];

fn all_bytes(alloc: Global) -> Result<Vec<u8>, AllocError> {
    let mut bytes = Vec::from_slice(alloc, ALL_HEAD)?;
    for (kind, numbers) in ALL_INDEX {
        bytes.push(*kind)?;
        for number in numbers {
            bytes.extend_from_slice(&number.to_le_bytes())?;
        }
    }
    for body in [FILE, METHOD, CLASS, BLOCK, RESCUE, ENSURE] {
        bytes.extend_from_slice(body)?;
    }
    Ok(bytes)
}

fn load_from<L: Ledger>(
    alloc: Global,
    blank: Blank,
    bytes: &[u8],
    from: u64,
) -> Result<(Option<Unit>, u64), AllocError>
    requires name { blank.name ≡ L.name }
    requires parts { blank.parts ≡ L.parts }
    requires some { 0 < L.parts }
    ensures { IfOk result (λ r. IfSome r.0 CanBeDumped) }
{
    let mut steps = Steps::<L>::new(blank);
    let image = Image::new(Bytes::new(alloc, bytes)?);
    let unit = load_all(alloc, &image, from, &mut steps)?;
    Ok((unit, steps.taken()))
}

/// The unit whose dump the bytes from there are, and how many bytes were taken.
fn loaded(alloc: Global, bytes: &[u8], from: u64) -> Result<(Option<Unit>, u64), AllocError>
    ensures { IfOk result (λ r. IfSome r.0 CanBeDumped) }
{
    load_from::<Brand>(alloc, Blank::new(1), bytes, from)
}

/// Whether the bytes are no unit, or the dump of the one that they are.
fn is_own_dump(alloc: Global, bytes: &[u8]) -> Result<bool, AllocError> {
    Ok(match loaded(alloc, bytes, 0)?.0 {
        Some(unit) => dump(alloc, &unit)?.as_slice() == bytes,
        None => true,
    })
}

/// The bytes of the empty file's dump between these places.
fn part(from: usize, past: usize) -> &'static [u8] {
    EMPTY.get(from..past).unwrap_or(&[])
}

/// The dump of the empty file with another byte at the place.
fn with_byte(alloc: Global, place: usize, byte: u8) -> Result<Vec<u8>, AllocError> {
    let mut bytes = Vec::from_slice(alloc, EMPTY)?;
    if let Some(changed) = bytes.get_mut(place) {
        *changed = byte;
    }
    Ok(bytes)
}

#[test]
fn empty_file(rt: HostRuntime) -> Result<(), Fail> {
    let alloc = rt.alloc();
    let (unit, taken) = loaded(alloc, EMPTY, 0)?;
    let unit = unit.ok_or("the bytes are a dump")?;
    assert_eq!(rt; taken, 56);
    assert_eq!(rt; unit.path.as_slice(), b"/e.rb".as_slice());
    assert_eq!(rt; unit.rows.len(), 1);
    for row in unit.rows.as_slice() {
        assert!(rt; matches!(row.kind, SeqKind::File));
    }
    for body in unit.bodies.as_slice() {
        assert_eq!(rt; body.first_line, 1);
        assert!(rt;
            matches!(
                body.code.get(0).map(|line| &line.instr),
                Some(Instr::PutNil)
            )
        );
        assert!(rt; matches!(body.code.get(1).map(|line| &line.instr), Some(Instr::Leave)));
    }
    assert_eq!(rt; dump(alloc, &unit)?.as_slice(), EMPTY);
    Ok(())
}

#[test]
fn changes_and_prefixes(rt: HostRuntime) -> Result<(), Fail> {
    let alloc = rt.alloc();
    for place in 0..EMPTY.len() {
        let (unit, taken) = loaded(alloc, part(0, place), 0)?;
        assert!(rt; unit.is_none(), "{place}");
        assert!(rt; taken <= place as u64, "{place}");
        for byte in 0..=255u8 {
            let bytes = with_byte(alloc, place, byte)?;
            assert!(rt; is_own_dump(alloc, &bytes)?, "{place} {byte}");
        }
    }
    Ok(())
}

/// The dump of a file with an empty body: the path's length, the path, and where the body begins.
fn with_path(alloc: Global, length: &[u8], path: &[u8], place: u8) -> Result<Vec<u8>, AllocError> {
    let mut bytes = Vec::from_slice(alloc, part(0, 4))?;
    bytes.extend_from_slice(length)?;
    bytes.extend_from_slice(path)?;
    bytes.push(1)?;
    bytes.extend_from_slice(part(11, 28))?;
    bytes.push(place)?;
    bytes.extend_from_slice(part(29, EMPTY.len()))?;
    Ok(bytes)
}

/// The length and the text of a path, where the body begins, and whether that is a dump.
const PATHS: &[(&[u8], &[u8], u8, bool)] = &[
    (&[5], b"/e.rb", 44, true),
    (&[0], b"", 39, true),
    // A path of two bytes that are no UTF-8.
    (&[2], &[0xff, 0xfe], 41, true),
    // The body's place is the one behind the index.
    (&[0], b"", 40, false),
    // A length in more bytes than it needs.
    (&[0x80, 0x00], b"", 40, false),
    (&[0x85, 0x00], b"/e.rb", 45, false),
    // 2^64 - 1, the same in eleven bytes, and 2^64.
    (
        &[0xff, 0xff, 0xff, 0xff, 0xff, 0xff, 0xff, 0xff, 0xff, 0x01],
        b"/e.rb",
        53,
        false,
    ),
    (
        &[
            0xff, 0xff, 0xff, 0xff, 0xff, 0xff, 0xff, 0xff, 0xff, 0x81, 0x00,
        ],
        b"/e.rb",
        54,
        false,
    ),
    (
        &[0x80, 0x80, 0x80, 0x80, 0x80, 0x80, 0x80, 0x80, 0x80, 0x02],
        b"/e.rb",
        53,
        false,
    ),
];

/// A byte of the empty file's dump, another one for it, and whether that is a dump.
const CHANGES: &[(usize, u8, bool)] = &[
    (4, 4, false),
    (5, 0x41, true),
    (9, 0xff, true),
    (10, 2, false),
    (11, 1, false),
    (28, 43, false),
    (36, 13, false),
    (45, 7, true),
    (51, 3, false),
    (52, 2, true),
    (53, 0, false),
    (55, 7, false),
];

#[test]
fn numbers_and_lengths(rt: HostRuntime) -> Result<(), Fail> {
    let alloc = rt.alloc();
    for (length, path, place, is_dump) in PATHS {
        let bytes = with_path(alloc, length, path, *place)?;
        let (unit, taken) = loaded(alloc, &bytes, 0)?;
        assert_eq!(rt; unit.is_some(), *is_dump, "{length:?}");
        assert!(rt; taken <= bytes.len() as u64);
    }
    for (place, byte, is_dump) in CHANGES {
        let bytes = with_byte(alloc, *place, *byte)?;
        let unit = loaded(alloc, &bytes, 0)?.0;
        assert_eq!(rt; unit.is_some(), *is_dump, "{place} {byte}");
    }
    // as many sequences as a number can say
    let mut bytes = Vec::from_slice(alloc, part(0, 10))?;
    bytes.extend_from_slice(&u64::MAX.to_le_bytes())?;
    bytes.extend_from_slice(&[0xff, 0x01])?;
    bytes.extend_from_slice(part(11, EMPTY.len()))?;
    assert!(rt; loaded(alloc, &bytes, 0)?.0.is_none());
    Ok(())
}

#[test]
fn every_kind(rt: HostRuntime) -> Result<(), Fail> {
    let alloc = rt.alloc();
    let mut bytes = all_bytes(alloc)?;
    let (unit, taken) = loaded(alloc, &bytes, 0)?;
    let unit = unit.ok_or("the bytes are a dump")?;
    assert_eq!(rt; taken, bytes.len() as u64);
    assert_eq!(rt; unit.bodies.len(), 6);
    let file = unit.bodies.get(0).ok_or("there is a file")?;
    assert_eq!(rt; file.rows.len(), 4);
    assert_eq!(rt; file.code.len(), 43);
    assert!(rt;
        matches!(
            file.code.get(23).map(|line| &line.instr),
            Some(Instr::PutObject(Literal::Int(i64::MIN)))
        )
    );
    assert!(rt; dump(alloc, &unit)?.as_slice() == bytes.as_slice());
    // a byte behind the last body
    bytes.push(0)?;
    assert!(rt; loaded(alloc, &bytes, 0)?.0.is_none());
    // the same bytes behind others, and a place behind the end
    let mut behind = Vec::from_slice(alloc, b"abc")?;
    behind.extend_from_slice(EMPTY)?;
    assert!(rt; loaded(alloc, &behind, 3)?.0.is_some());
    assert!(rt; loaded(alloc, &behind, 60)?.0.is_none());
    Ok(())
}

/// What the empty file's dump has as its header and as its body, and the bytes taken for them.
fn read_parts<L: Ledger>(alloc: Global, blank: Blank) -> Result<([bool; 4], u64), AllocError>
    requires name { blank.name ≡ L.name }
    requires parts { blank.parts ≡ L.parts }
    requires some { 0 < L.parts }
{
    let mut steps = Steps::<L>::new(blank);
    let image = Image::new(Bytes::new(alloc, EMPTY)?);
    let head = read_head(alloc, &image, 0, &mut steps)?;
    let place = match &head {
        Some(head) => head.entries.get(0).map(|entry| (entry.place, entry.length)),
        None => None,
    };
    let body = read_body(alloc, &image, 44, 12, &mut steps)?;
    let taken = steps.taken();
    let shorter = read_body(alloc, &image, 44, 11, &mut steps)?;
    let longer = read_body(alloc, &image, 44, 13, &mut steps)?;
    let read = [
        place == Some((44, 12)),
        body.is_some(),
        shorter.is_none(),
        longer.is_none(),
    ];
    Ok((read, taken))
}

fn parts_read(alloc: Global) -> Result<([bool; 4], u64), AllocError> {
    read_parts::<Brand>(alloc, Blank::new(1))
}

#[test]
fn parts(rt: HostRuntime) -> Result<(), Fail> {
    laws::one_spelling();
    laws::numbers_are_leb128();
    let (read, taken) = parts_read(rt.alloc())?;
    assert_eq!(rt; read, [true, true, true, true]);
    assert_eq!(rt; taken, 56);
    Ok(())
}

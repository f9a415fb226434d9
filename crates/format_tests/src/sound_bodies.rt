//! Unsound bodies, each beside its mended twin, and searches in a catch table.
ghost use Rattle.std.specs.Prelude.{◌≡◌, ◌<◌, ◌↔◌, IsTrue};
ghost use Rattle.iseq_types.specs.Index.{AreIndexRows, IsIndexRow};

use bs_outside::{Bytes, Image, Steps};
use iseq_dump::read_body;
use iseq_types::{CatchKind, IndexRow, SeqKind, Sequence, check_body, find_catch};
use std::alloc::{AllocError, Global};
use std::marker::Brand;
use std::sync::ledger::{Blank, Ledger};
use std::test::Fail;

/// A word of the text that spells a body here: a name, and numbers behind points.
#[derive(Drop)]
struct Word<'a> {
    name: &'a str,
    numbers: [u64; 5],
}

fn read_word(text: &str) -> Word<'_> {
    let mut parts = text.split('.');
    let name = parts.next().unwrap_or("");
    let mut numbers = [0; 5];
    for number in &mut numbers {
        *number = match parts.next() {
            Some(digits) => digits.parse().unwrap_or(0),
            None => 0,
        };
    }
    Word { name, numbers }
}

/// The name of a word, the bytes that it begins with in a dump, and what follows of each of its
/// numbers: the number (n), a list with so many empty texts (t), or a list with the place before it
/// and an empty one for 0 (s).
type Spelling = (&'static str, &'static [u8], &'static [u8]);

const ENTRIES: &[Spelling] = &[("entry", b"", b"n")];

const CATCH_ROWS: &[Spelling] = &[
    ("rescue", b"\x00", b"nnnnn"),
    ("ensure", b"\x01", b"nnnnn"),
    ("break", b"\x02", b"nnnnn"),
    ("next", b"\x03", b"nnnnn"),
];

/// Each in line 1, and with an empty name where it has one.
const INSTRUCTIONS: &[Spelling] = &[
    ("nop", &[1, 0], b""),
    ("pop", &[1, 1], b""),
    ("dup", &[1, 2], b""),
    ("swap", &[1, 3], b""),
    ("topn", &[1, 4], b"n"),
    ("setn", &[1, 5], b"n"),
    ("adjust", &[1, 6], b"n"),
    ("nil", &[1, 7], b""),
    ("get", &[1, 11], b"nn"),
    ("set", &[1, 12], b"nn"),
    ("path", &[1, 18], b"nt"),
    ("array", &[1, 19], b"ns"),
    ("hash", &[1, 20], b"n"),
    ("range", &[1, 21], b"n"),
    ("send", &[1, 25, 0], b"nsnn"),
    ("super", &[1, 26], b"nsnn"),
    ("yield", &[1, 27], b"ns"),
    ("def", &[1, 28, 0], b"nn"),
    ("class", &[1, 29, 0], b"nn"),
    ("jump", &[1, 31], b"n"),
    ("if", &[1, 32], b"n"),
    ("unless", &[1, 33], b"n"),
    ("ifnil", &[1, 34], b"n"),
    ("throw", &[1, 35], b"n"),
    ("leave", &[1, 36], b""),
    ("expand", &[1, 37], b"n"),
];

/// Puts a number in LEB128.
fn put_number(out: &mut Vec<u8>, number: u64) -> Result<(), AllocError> {
    let mut left = number;
    // (64 bits have ten groups of seven at most)
    for _ in 0..9 {
        if left < 128 {
            break;
        }
        out.push((left % 128) as u8 + 128)?;
        left /= 128;
    }
    out.push((left % 128) as u8)?;
    Ok(())
}

/// Puts a list with so many empty texts.
fn put_texts(out: &mut Vec<u8>, count: u64) -> Result<(), AllocError> {
    put_number(out, count)?;
    for _ in 0..count {
        out.push(0)?;
    }
    Ok(())
}

fn put_operand(out: &mut Vec<u8>, form: u8, number: u64) -> Result<(), AllocError> {
    if form == b't' {
        return put_texts(out, number);
    }
    if form == b's' && number > 0 {
        out.push(1)?;
        return put_number(out, number - 1);
    }
    put_number(out, number)
}

/// Puts the word, and answers whether it has one of the spellings.
fn put_word(out: &mut Vec<u8>, spellings: &[Spelling], word: &Word) -> Result<bool, AllocError> {
    for (name, front, forms) in spellings {
        if *name == word.name {
            out.extend_from_slice(front)?;
            for (form, number) in forms.iter().zip(&word.numbers) {
                put_operand(out, *form, *number)?;
            }
            return Ok(true);
        }
    }
    Ok(false)
}

/// Puts a list of the words of the text that have one of the spellings.
fn put_list(
    alloc: Global,
    out: &mut Vec<u8>,
    spellings: &[Spelling],
    text: &str,
) -> Result<(), AllocError> {
    let mut list = Vec::new(alloc);
    let mut count: u64 = 0;
    for part in text.split_whitespace() {
        if put_word(&mut list, spellings, &read_word(part))? {
            count = count.saturating_add(1);
        }
    }
    put_number(out, count)?;
    out.append(&mut list)
}

/// The number of the word of this name, or 0.
fn number_of(text: &str, name: &str) -> u64 {
    for part in text.split_whitespace() {
        let word = read_word(part);
        if word.name == name {
            return word.numbers[0];
        }
    }
    0
}

fn body_bytes(alloc: Global, text: &str) -> Result<Bytes, AllocError> {
    // no name, and line 1
    let mut out = Vec::from_slice(alloc, &[0, 1])?;
    put_texts(&mut out, number_of(text, "locals"))?;
    put_number(&mut out, number_of(text, "required"))?;
    put_list(alloc, &mut out, ENTRIES, text)?;
    put_number(&mut out, number_of(text, "flags"))?;
    put_list(alloc, &mut out, CATCH_ROWS, text)?;
    put_list(alloc, &mut out, INSTRUCTIONS, text)?;
    Ok(Bytes::from_vec(out))
}

fn read_all<L: Ledger>(
    alloc: Global,
    blank: Blank,
    bytes: Bytes,
) -> Result<Option<Sequence>, AllocError>
    requires name { blank.name ≡ L.name }
    requires parts { blank.parts ≡ L.parts }
    requires some { 0 < L.parts }
{
    let mut steps = Steps::<L>::new(blank);
    let image = Image::new(bytes);
    read_body(alloc, &image, 0, image.len(), &mut steps)
}

/// The body that the text spells, if it spells one.
fn body(alloc: Global, text: &str) -> Result<Option<Sequence>, AllocError> {
    read_all::<Brand>(alloc, Blank::new(1), body_bytes(alloc, text)?)
}

/// The index of all bodies here.
const ROWS: [IndexRow; 11] = [
    IndexRow {
        kind: SeqKind::File,
        parent: 0,
        locals: 0,
    },
    IndexRow {
        kind: SeqKind::Method,
        parent: 0,
        locals: 3,
    },
    IndexRow {
        kind: SeqKind::Block,
        parent: 1,
        locals: 1,
    },
    IndexRow {
        kind: SeqKind::Rescue,
        parent: 1,
        locals: 0,
    },
    IndexRow {
        kind: SeqKind::Ensure,
        parent: 1,
        locals: 0,
    },
    IndexRow {
        kind: SeqKind::Class,
        parent: 0,
        locals: 0,
    },
    IndexRow {
        kind: SeqKind::Block,
        parent: 0,
        locals: 0,
    },
    IndexRow {
        kind: SeqKind::Block,
        parent: 3,
        locals: 2,
    },
    IndexRow {
        kind: SeqKind::Method,
        parent: 0,
        locals: 0,
    },
    IndexRow {
        kind: SeqKind::Method,
        parent: 5,
        locals: 0,
    },
    IndexRow {
        kind: SeqKind::Method,
        parent: 1,
        locals: 1,
    },
];

fn is_index_row(id: usize, row: &IndexRow) -> bool
    ensures { IsTrue result ↔ IsIndexRow id row.now }
{
    if id == 0 {
        row.kind == SeqKind::File && row.parent == 0
    } else {
        row.kind != SeqKind::File && row.parent < id
    }
}

fn are_index_rows(rows: &[IndexRow]) -> bool
    ensures { IsTrue result ↔ AreIndexRows rows.now }
{
    for id in 0..rows.len() {
        if !is_index_row(id, &rows[id]) {
            return false;
        }
    }
    rows.len() > 0
}

/// Whether the text spells a sound body of this sequence, and nothing where it spells none.
fn soundness(alloc: Global, id: usize, text: &str) -> Result<Option<bool>, AllocError> {
    let Some(seq) = body(alloc, text)? else {
        return Ok(None);
    };
    if !are_index_rows(&ROWS) || id >= ROWS.len() {
        return Ok(None);
    }
    Ok(Some(check_body(alloc, &seq, &ROWS, id)?.is_some()))
}

/// The number of a sequence, a body of it that is not sound, and its mended twin.
const PAIRS: &[(usize, &str, &str)] = &[
    // Each instruction finds enough on the stack.
    (0, "pop nil leave", "nil pop nil leave"),
    (0, "dup leave", "nil dup leave"),
    (0, "nil topn.1 leave", "nil topn.0 leave"),
    (0, "nil setn.1 leave", "nil nil setn.1 leave"),
    (0, "nil topn.18446744073709551615 leave", "nil leave"),
    (0, "nil swap leave", "nil nil swap leave"),
    (0, "nil send.1 leave", "nil nil send.1 leave"),
    (0, "nil send.0.0.2 leave", "nil nil send.0.0.2 leave"),
    (
        0,
        "nil send.18446744073709551615.0.2 leave",
        "nil send.0.0.4 leave",
    ),
    (0, "super.0 leave", "nil super.0 leave"),
    (0, "array.18446744073709551615 leave", "array.0 leave"),
    (0, "adjust.1 nil leave", "nil nil adjust.1 leave"),
    (0, "path.2.1 leave", "nil path.2.1 leave"),
    (0, "leave", "nil leave"),
    (0, "throw.1", "nil throw.1"),
    (0, "nil range.0 leave", "nil nil range.0 leave"),
    // Each place has one depth.
    (0, "nil if.3 nil nil leave", "nil if.4 nil jump.5 nil leave"),
    (0, "nil jump.0", "nil pop jump.0"),
    (
        0,
        "nil if.5 nil dup expand.18446744073709551615 nil leave",
        "nil pop nil dup expand.18446744073709551615 nil leave",
    ),
    (
        0,
        "nil unless.4 nil throw.2 pop nil leave",
        "nil unless.2 nil throw.2 pop nil leave",
    ),
    // Sequences start at their depth, and entries at 0.
    (3, "entry.0 leave", "leave"),
    (
        1,
        "locals.3 entry.0 entry.1 nil leave",
        "locals.3 entry.0 entry.0 nil leave",
    ),
    (4, "throw.7", "nil throw.7"),
    // Targets, entries and rows lie inside.
    (0, "nil if.4 nil leave", "nil if.2 nil leave"),
    (
        0,
        "nil if.18446744073709551615 nil leave",
        "nil ifnil.2 nil leave",
    ),
    (
        1,
        "locals.3 entry.2 nil leave",
        "locals.3 entry.0 nil leave",
    ),
    (0, "break.0.1.2.0 nil leave", "break.0.1.1.0 nil leave"),
    (0, "next.2.3.3.0 nil leave", "next.0.1.1.0 nil leave"),
    // A row's range is not empty, and cont not below its end.
    (0, "break.0.0.1.0 nil leave", "break.0.1.1.0 nil leave"),
    (
        0,
        "break.0.2.1.0 nil dup pop leave",
        "break.0.1.1.0 nil dup pop leave",
    ),
    // What a row holds keeps its depth.
    (
        0,
        "break.0.2.2.1 nil nil pop leave",
        "break.1.2.2.1 nil nil pop leave",
    ),
    (
        0,
        "break.1.2.4.1 nil pop nil nil pop leave",
        "break.3.4.4.1 nil pop nil nil pop leave",
    ),
    (
        0,
        "break.2.3.3.1 nil nil swap pop leave",
        "break.1.2.2.1 nil dup pop leave",
    ),
    (
        1,
        "locals.3 rescue.1.2.3.0.3 nil pop nil leave",
        "locals.3 rescue.0.2.3.0.3 nil pop nil leave",
    ),
    (
        0,
        "break.0.1.1.18446744073709551615 nil leave",
        "next.0.1.1.0 nil leave",
    ),
    (
        0,
        "break.0.1.2.0 nil nil leave",
        "break.0.1.2.0 nil nop leave",
    ),
    (
        0,
        "break.0.3.3.1 jump.4 pop pop pop nil leave",
        "break.0.3.3.0 jump.4 pop pop pop nil leave",
    ),
    (
        0,
        "break.1.8.8.1 nil nil pop nil pop pop nil nil pop leave",
        "break.1.8.8.1 nil nil pop nil pop nop nop nil pop leave",
    ),
    // A body ends with a jump, a leave or a throw, an ensure part without a leave.
    (0, "nil", "nil leave"),
    (0, "", "nil throw.1"),
    (0, "nil leave nil", "nil leave jump.0"),
    (4, "nil leave", "nil pop throw.0"),
    (4, "throw.0 leave", "throw.0"),
    // Slots and levels exist.
    (1, "locals.3 get.3.0 leave", "locals.3 get.2.0 leave"),
    (1, "locals.3 get.0.1 leave", "locals.3 get.0.0 leave"),
    (2, "locals.1 get.0.2 leave", "locals.1 get.2.1 leave"),
    (3, "get.3.0 leave", "get.2.0 leave"),
    (3, "get.0.1 leave", "get.0.0 leave"),
    (7, "locals.2 get.3.1 leave", "locals.2 get.2.1 leave"),
    (
        7,
        "locals.2 get.0.18446744073709551615 leave",
        "locals.2 nil set.1.0 nil leave",
    ),
    (5, "get.0.0 leave", "nil leave"),
    // A method sees nothing outward, though another method with this slot stands around it.
    (10, "locals.1 get.2.1 leave", "locals.1 get.0.0 leave"),
    // Names of sequences are children of the right kind.
    (0, "nil send.0.0.0.2 leave", "nil send.0.0.0.7 leave"),
    (
        1,
        "locals.3 nil super.0.0.0.4 leave",
        "locals.3 nil super.0.0.0.3 leave",
    ),
    (0, "nil send.0.0.0.3 leave", "nil send.0.0.0.0 leave"),
    (
        0,
        "nil send.0.0.0.18446744073709551615 leave",
        "nil send.0.0.0.7 leave",
    ),
    (0, "nil def.6.0 leave", "nil def.2.0 leave"),
    (0, "nil def.10.0 leave", "nil def.9.1 leave"),
    (0, "nil class.2.0 leave", "nil class.6.0 leave"),
    (
        1,
        "locals.3 rescue.0.1.1.0.4 nil leave",
        "locals.3 rescue.0.1.1.0.3 nil leave",
    ),
    (
        1,
        "locals.3 ensure.0.1.1.0.3 nil leave",
        "locals.3 ensure.0.1.1.0.4 nil leave",
    ),
    // Splats are below the count.
    (0, "nil array.1.2 leave", "nil array.1.1 leave"),
    (0, "nil send.0.1 leave", "nil nil send.1.1 leave"),
    (0, "nil super.0.1 leave", "nil nil super.1.1 leave"),
    (0, "yield.0.1 leave", "nil yield.1.1 leave"),
    // Operands are known.
    (0, "path.3.1 leave", "path.1.1 leave"),
    (0, "path.0.0 leave", "path.0.1 leave"),
    (0, "nil hash.1 leave", "nil nil hash.2 leave"),
    (0, "nil nil range.2 leave", "nil nil range.1 leave"),
    (0, "nil send.0.0.8 leave", "nil send.0.0.5 leave"),
    (0, "nil super.0.0.8 leave", "nil super.0.0.1 leave"),
    (0, "nil def.2.2 leave", "nil def.2.1 leave"),
    (0, "nil def.0.0 leave", "nil def.9.0 leave"),
    (0, "nil class.6.3 leave", "nil class.6.2 leave"),
    (0, "nil class.0.0 leave", "nil class.6.1 leave"),
    // Locals and parameters are as many as the index says.
    (1, "locals.2 nil leave", "locals.3 nil leave"),
    (0, "locals.1 nil leave", "nil leave"),
    (
        1,
        "locals.3 required.4 nil leave",
        "locals.3 required.3 nil leave",
    ),
    (
        1,
        "locals.3 required.18446744073709551615 flags.3 nil leave",
        "locals.3 required.1 flags.3 nil leave",
    ),
    (
        1,
        "locals.3 required.3 entry.0 entry.0 nil leave",
        "locals.3 required.2 entry.0 entry.0 nil leave",
    ),
    (
        1,
        "locals.3 required.3 flags.1 nil leave",
        "locals.3 required.3 entry.0 nil leave",
    ),
    (
        1,
        "locals.3 required.3 flags.2 nil leave",
        "locals.3 required.2 flags.2 nil leave",
    ),
    // Throws stand where they may.
    (0, "nil throw.8", "nil throw.5"),
    (0, "throw.0", "nil throw.1"),
    (1, "locals.3 nil throw.7", "locals.3 nil throw.2"),
    (
        1,
        "locals.3 nil throw.6",
        "locals.3 ensure.0.2.2.0.4 nil throw.6 leave",
    ),
    (
        1,
        "locals.3 ensure.0.1.1.0.4 nil throw.6 leave",
        "locals.3 ensure.0.2.2.0.4 ensure.0.1.1.0.4 nil throw.6 leave",
    ),
    (
        1,
        "locals.3 rescue.0.2.2.0.3 nil throw.6 leave",
        "locals.3 ensure.0.1.3.0.4 ensure.0.3.3.0.4 nil nop throw.6 leave",
    ),
];

/// What a body's soundness is where its break or next row names a sequence, which no dump can, and
/// where it names none.
const ROWS_WITH_NO_SEQUENCE: &[(usize, &str, Option<bool>)] = &[
    (1, "locals.3 break.0.1.1.0.1 nil leave", None),
    (1, "locals.3 break.0.1.1.0.0 nil leave", Some(true)),
    (0, "next.0.1.1.0.6 nil leave", None),
    (0, "next.0.1.1.0.0 nil leave", Some(true)),
];

#[test]
fn unsound_bodies_are_refused_and_their_twins_accepted(rt: HostRuntime) -> Result<(), Fail> {
    for (id, unsound, sound) in PAIRS {
        assert_eq!(rt;
            soundness(rt.alloc(), *id, unsound)?,
            Some(false),
            "{unsound}"
        );
        assert_eq!(rt; soundness(rt.alloc(), *id, sound)?, Some(true), "{sound}");
    }
    for (id, text, found) in ROWS_WITH_NO_SEQUENCE {
        assert_eq!(rt; soundness(rt.alloc(), *id, text)?, *found, "{text}");
    }
    Ok(())
}

#[test]
fn the_first_row_that_holds_the_place_is_found(rt: HostRuntime) -> Result<(), Fail> {
    let seq = body(
        rt.alloc(),
        "ensure.0.4.4.0.1 rescue.1.3.4.0.2 break.1.2.4.0 rescue.0.5.5.0.3",
    )?;
    let seq = seq.ok_or("the text spells a body")?;
    let rows = [
        (0, 0, CatchKind::Ensure, Some(0)),
        (0, 4, CatchKind::Ensure, None),
        (1, 0, CatchKind::Ensure, None),
        (0, 1, CatchKind::Rescue, Some(1)),
        (0, 0, CatchKind::Rescue, Some(3)),
        (0, 3, CatchKind::Rescue, Some(3)),
        (2, 1, CatchKind::Rescue, Some(3)),
        (0, 1, CatchKind::Break, Some(2)),
        (0, 2, CatchKind::Break, None),
        (0, 1, CatchKind::Next, None),
        (9, 1, CatchKind::Rescue, None),
        (4, 1, CatchKind::Rescue, None),
    ];
    for (from_row, pc, kind, found) in rows {
        assert_eq!(rt; find_catch(&seq, from_row, pc, kind), found);
    }
    Ok(())
}

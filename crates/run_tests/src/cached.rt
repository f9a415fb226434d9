//! Runs with the cache.
use crate::outcomes::{Entries, Outcome, Source, outcome_over, shelf_of};
use bs_outside::{Bytes, CacheKind, NoMemory};
use cache_key::cache_name;
use mem_outside::MemShelf;
use std::alloc::Global;
use std::test::Fail;
use std::thread::Threads;

const MAIN: Source<'static> = Source {
    path: "/main.rb",
    text: b"puts 2 + 3\n",
    mtime: 100,
};

const NOTED: &str = "run --instrument main.rb";

/// A file `/e.rb` with this text.
fn e_file(text: &[u8]) -> Source<'_> {
    Source {
        path: "/e.rb",
        text,
        mtime: 1,
    }
}

/// One entry under the name of this path.
fn entry_at(alloc: Global, path: &str, bytes: &[u8]) -> Result<Entries, NoMemory> {
    let mut start = Vec::new(alloc);
    let name = cache_name(CacheKind::Iseq, path.as_bytes());
    start.push((name, Bytes::new(alloc, bytes)?))?;
    Ok(start)
}

/// What a run over no cache files comes to.
fn run_anew<H: Threads + Sync>(
    threads: &H,
    alloc: Global,
    line: &str,
    source: &Source<'_>,
) -> Result<Outcome, Fail> {
    outcome_over(
        threads,
        alloc,
        line,
        source,
        shelf_of(alloc, Vec::new(alloc)),
    )
}

/// What a run over this entry of the source comes to.
fn run_over<H: Threads + Sync>(
    threads: &H,
    alloc: Global,
    line: &str,
    source: &Source<'_>,
    entry: &[u8],
) -> Result<Outcome, Fail> {
    let entries = entry_at(alloc, source.path, entry)?;
    outcome_over(threads, alloc, line, source, shelf_of(alloc, entries))
}

/// What stands in place of an entry.
#[derive(Clone, Copy)]
enum Change {
    None,
    /// Its first bytes alone.
    Cut(usize),
    /// The key, and zeros behind it.
    Zeros,
    /// One byte for another behind the key.
    Byte(u8, u8),
}

/// The byte that stands at the place.
fn changed_byte(change: &Change, place: usize, byte: u8) -> u8 {
    match change {
        Change::Zeros if place >= 64 => 0,
        Change::Byte(from, to) if place >= 64 && byte == *from => *to,
        _ => byte,
    }
}

fn changed(alloc: Global, entry: &[u8], change: &Change) -> Result<Vec<u8>, NoMemory> {
    let mut bytes = Vec::new(alloc);
    for (place, byte) in entry.iter().enumerate() {
        bytes.push(changed_byte(change, place, *byte))?;
    }
    if let Change::Cut(length) = change {
        bytes.truncate(*length);
    }
    Ok(bytes)
}

#[test]
fn runs_over_an_entry(rt: HostRuntime) -> Result<(), Fail> {
    let alloc = rt.alloc();
    let made = run_anew(&rt, alloc, NOTED, &MAIN)?;
    assert!(rt; made.is(0, "5\n", "", "[Bootsnap] miss /main.rb\n") && made.asked(1, 1, 1));
    let entry = made.entry("/main.rb").ok_or("no entry")?;
    let last = entry.len().saturating_sub(1);
    let (text, other) = (MAIN.text, b"puts 2 + 4\n".as_slice());
    for (change, text, mtime, status, output, event, reads, past) in [
        (Change::None, text, 100, 0, "5\n", "hit", 0, 0),
        (Change::Cut(63), text, 100, 0, "5\n", "stale", 1, 1),
        (Change::Cut(64), text, 100, 0, "5\n", "stale", 1, 1),
        (Change::Cut(last), text, 100, 0, "5\n", "stale", 1, 1),
        // The source changed.
        (Change::None, other, 101, 0, "6\n", "stale", 1, 1),
        (Change::None, text, 102, 0, "5\n", "stale", 1, 1),
        // It holds no unit, or another.
        (Change::Zeros, text, 100, 0, "5\n", "hit", 1, 0),
        (Change::Byte(b'+', b'-'), text, 100, 0, "-1\n", "hit", 0, 0),
        (Change::Byte(b'+', b'*'), text, 100, 207, "", "hit", 0, 0),
    ] {
        let source = Source {
            text,
            mtime,
            ..MAIN
        };
        let bytes = changed(alloc, entry, &change)?;
        let outcome = run_over(&rt, alloc, NOTED, &source, &bytes)?;
        let notes = format!(in alloc; "[Bootsnap] {event} /main.rb\n")?;
        assert!(rt;
            outcome.is(status, output, "", notes.as_str()),
            "{event} {mtime}"
        );
        assert!(rt; outcome.asked(1, reads, past), "{event} {mtime}");
    }
    Ok(())
}

#[test]
fn shelves_that_fail_or_have_guests(rt: HostRuntime) -> Result<(), Fail> {
    let alloc = rt.alloc();
    let miss = "[Bootsnap] miss /main.rb\n";
    let mut fail = Vec::new(alloc);
    for number in 1..=100 {
        fail.push(number)?;
    }
    let failing = MemShelf::new(alloc, Vec::new(alloc), Vec::new(alloc), fail, 50);
    let outcome = outcome_over(&rt, alloc, NOTED, &MAIN, failing)?;
    assert!(rt; outcome.is(0, "5\n", "", miss) && outcome.asked(1, 1, 0));
    let made = run_anew(&rt, alloc, NOTED, &MAIN)?;
    let entry = made.entry("/main.rb").ok_or("no entry")?;
    let name = cache_name(CacheKind::Iseq, b"/main.rb");
    let mut guests = Vec::new(alloc);
    guests.push((2, name, Bytes::new(alloc, entry)?))?;
    let raced = MemShelf::new(alloc, Vec::new(alloc), guests, Vec::new(alloc), 50);
    let outcome = outcome_over(&rt, alloc, NOTED, &MAIN, raced)?;
    assert!(rt; outcome.is(0, "5\n", "", miss) && outcome.asked(1, 1, 2));
    assert!(rt; outcome.entry("/main.rb") == Some(entry));
    assert!(rt; outcome.shelf().own() == [1].as_slice());
    Ok(())
}

/// The entry of the empty file `/e.rb` with the time 1.
const EMPTY: [u8; 120] = [
    0x05, 0, 0, 0, 0x01, 0, 0, 0, 0, 0, 0, 0, 0x21, 0, 0, 0, // the constants
    0, 0, 0, 0, 0, 0, 0, 0, 0x01, 0, 0, 0, 0, 0, 0, 0, // size and time
    0x38, 0, 0, 0, 0, 0, 0, 0, 0x25, 0x23, 0x22, 0x84, 0xe4, 0x9c, 0xf2, 0xcb, // length and digest
    0x01, 0, 0, 0, 0, 0, 0, 0, 0, 0, 0, 0, 0, 0, 0, 0, // a digest is set
    0x59, 0x53, 0x51, 0x01, 0x05, 0x2f, 0x65, 0x2e, 0x72, 0x62, 0x01, 0x00, 0, 0, 0, 0, 0, 0, 0, 0,
    0, 0, 0, 0, 0, 0, 0, 0, 0x2c, 0, 0, 0, 0, 0, 0, 0, 0x0c, 0, 0, 0, 0, 0, 0, 0, 0x00, 0x01, 0x00,
    0x00, 0x00, 0x00, 0x00, 0x02, 0x01, 0x07, 0x01, 0x24,
];

/// What stands behind the key in the entry of a file `/e.rb` with a line of each form.
const DUMP: &[u8] = &[
    0x59, 0x53, 0x51, 0x01, // the mark
    5, 47, 101, 46, 114, 98, // the path
    1, // so many rows
    0, 0, 0, 0, 0, 0, 0, 0, 0, 1, 0, 0, 0, 0, 0, 0, 0, // file, no parent, one local
    44, 0, 0, 0, 0, 0, 0, 0, 84, 0, 0, 0, 0, 0, 0, 0, // the body's place and its length
    0, 1, // no name, first line
    1, 1, 120, // locals
    0, 0, 0, 0, // no parameters and no rows
    16, // instructions
    1, 9, 3, 2, // putobject 1
    1, 2, // dup
    1, 12, 0, 0, // setlocal 0 0
    1, 1, // pop
    3, 8, // putself
    3, 11, 0, 0, // getlocal 0 0
    3, 9, 3, 4, // putobject 2
    3, 25, 1, 43, 1, 0, 0, 0, // send "+" 1
    3, 11, 0, 0, // getlocal 0 0
    3, 25, 1, 45, 1, 0, 0, 0, // send "-" 1
    3, 25, 4, 112, 117, 116, 115, 1, 0, 1, 0, // send "puts" 1, flags 1
    1, 1, // pop
    4, 8, // putself
    4, 10, 1, 97, // putstring "a"
    4, 25, 4, 112, 117, 116, 115, 1, 0, 1, 0, // send "puts" 1, flags 1
    1, 36, // leave
];

#[test]
fn entries_of_small_files(rt: HostRuntime) -> Result<(), Fail> {
    let alloc = rt.alloc();
    let outcome = run_anew(&rt, alloc, "run e.rb", &e_file(b""))?;
    assert!(rt; outcome.is(0, "", "", "") && outcome.asked(1, 1, 1));
    assert!(rt; outcome.entry("/e.rb") == Some(EMPTY.as_slice()));
    for text in [
        "x = 1\n\nputs x + 2 - x\nputs \"a\"",
        "x=1\n\nputs(x+2 -\tx) # a sum\nputs  \"a\"\n",
    ] {
        let outcome = run_anew(&rt, alloc, "run e.rb", &e_file(text.as_bytes()))?;
        let entry = outcome.entry("/e.rb").ok_or("no entry")?;
        assert!(rt;
            outcome.is(0, "2\na\n", "", "") && entry.get(64..) == Some(DUMP),
            "{text}"
        );
    }
    // Without the cache no shelf is called.
    let line = "run --instrument --cache off e.rb";
    let outcome = run_over(&rt, alloc, line, &e_file(b""), EMPTY.as_slice())?;
    assert!(rt; outcome.is(0, "", "", "") && outcome.asked(1, 1, 0));
    assert!(rt; outcome.shelf().loads().is_empty());
    Ok(())
}

#[test]
fn files_that_do_not_run(rt: HostRuntime) -> Result<(), Fail> {
    let alloc = rt.alloc();
    let miss = "[Bootsnap] miss /main.rb\n";
    let fault = "/main.rb:2: syntax error (SyntaxError)\n";
    let gone = "cannot load such file -- /gone.rb (LoadError)\n";
    for (text, file, status, errors, notes, stats, reads) in [
        ("puts 2 * 3\n", "main.rb", 207, "", miss, 1, 1),
        ("def f\nend\n", "main.rb", 207, "", miss, 1, 1),
        ("puts 1\nend", "main.rb", 1, fault, miss, 1, 1),
        ("puts 1\n", "gone.rb", 1, gone, "", 1, 0),
    ] {
        let source = Source {
            text: text.as_bytes(),
            ..MAIN
        };
        let line = format!(in alloc; "run --instrument {file}")?;
        let outcome = run_anew(&rt, alloc, line.as_str(), &source)?;
        assert!(rt; outcome.is(status, "", errors, notes), "{text}");
        assert!(rt; outcome.asked(stats, reads, 0), "{text}");
    }
    Ok(())
}

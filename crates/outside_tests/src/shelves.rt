//! Shelves in memory, with others that rename, calls that fail and short appends.
use atomic_files::publish;
use bs_outside::{Bytes, CacheKind, CacheName, Image, Loaded, Shelf, ShelfFault};
use mem_shelf::{MemShelf, SureShelf};
use std::alloc::{AllocError, Global};
use std::test::Fail;

type Files = Vec<(CacheName, Bytes)>;

type Guests = Vec<(u64, CacheName, Bytes)>;

const NAME: CacheName = CacheName {
    kind: CacheKind::Iseq,
    hash: 1,
};

const OTHER: CacheName = CacheName {
    kind: CacheKind::Json,
    hash: 1,
};

const THIRD: CacheName = CacheName {
    kind: CacheKind::Iseq,
    hash: 3,
};

// What stands at the start: of two files of one name the last counts.
fn start_files(alloc: Global) -> Result<Files, AllocError> {
    let mut start = Vec::new(alloc);
    for (name, bytes) in [(NAME, "older"), (THIRD, "third"), (NAME, "old")] {
        start.push((name, Bytes::new(alloc, bytes.as_bytes())?))?;
    }
    Ok(start)
}

// Guests before the first and the third call, in their order; one comes in no test.
fn guests(alloc: Global) -> Result<Guests, AllocError> {
    let mut guests = Vec::new(alloc);
    for (call, name, bytes) in [
        (3, OTHER, "second guest"),
        (1, NAME, "first guest"),
        (3, NAME, "third guest"),
        (1000, NAME, "no guest"),
    ] {
        guests.push((call, name, Bytes::new(alloc, bytes.as_bytes())?))?;
    }
    Ok(guests)
}

fn is_file(file: &(CacheName, Bytes), wanted: &(CacheName, &str)) -> bool {
    file.0 == wanted.0 && file.1.as_slice() == wanted.1.as_bytes()
}

// Whether the files are the first of those wanted, as many as that.
fn are_files(files: &[(CacheName, Bytes)], wanted: &[(CacheName, &str)], count: usize) -> bool {
    if files.len() != count {
        return false;
    }
    for (file, want) in files.iter().zip(wanted.iter()) {
        if !is_file(file, want) {
            return false;
        }
    }
    true
}

// Publishes twenty bytes, and says how many items the past then has: each before the own one is a guest's.
fn published(
    alloc: Global,
    shelf: &mut MemShelf,
    failing: u64,
) -> Result<(usize, usize), ShelfFault> {
    match publish(alloc, shelf, &NAME, b"twenty bytes in all.") {
        Ok(()) => Ok((4, 1)),
        Err(ShelfFault::Failed) if failing < 3 => Ok((1, 0)),
        Err(ShelfFault::Failed) => Ok((3, 0)),
        Err(fault) => Err(fault),
    }
}

// One begin, as many appends as bites, one rename; each of them fails in turn, and in the first and the last try none.
#[test]
fn publishes_over_bites(rt: HostRuntime) -> Result<(), Fail> {
    let alloc = rt.alloc();
    let wanted = [
        (NAME, "first guest"),
        (OTHER, "second guest"),
        (NAME, "third guest"),
        (NAME, "twenty bytes in all."),
    ];
    for (bite, calls) in [(1, 22), (7, 5), (4096, 3)] {
        for failing in 0..calls + 2 {
            let fail = vec![in alloc; failing]?;
            let mut shelf = MemShelf::new(alloc, start_files(alloc)?, guests(alloc)?, fail, bite);
            let (joined, own) = published(alloc, &mut shelf, failing)?;
            assert!(rt;
                are_files(shelf.past(), &wanted, joined),
                "bite {bite}, failing {failing}"
            );
            assert_eq!(rt; shelf.own().len(), own, "bite {bite}, failing {failing}");
            assert!(rt;
                (own == 1) == (failing < 1 || calls < failing),
                "bite {bite}, {failing}"
            );
        }
    }
    Ok(())
}

fn is_image(image: &Option<Image>, len: u64) -> bool {
    match image {
        Some(image) => image.len() == len,
        None => false,
    }
}

// Loads before and after guests, of a name that nothing has, and one that fails.
#[test]
fn loads_what_stands(rt: HostRuntime) -> Result<(), Fail> {
    let alloc = rt.alloc();
    let fail = vec![in alloc; 4]?;
    let mut shelf = MemShelf::new(alloc, start_files(alloc)?, guests(alloc)?, fail, 4096);
    assert!(rt; is_image(&shelf.load(alloc, &NAME)?, 11));
    assert!(rt; shelf.load(alloc, &OTHER)?.is_none());
    assert!(rt; is_image(&shelf.load(alloc, &OTHER)?, 12));
    assert!(rt; matches!(&shelf.load(alloc, &NAME), Err(ShelfFault::Failed)));
    assert!(rt; is_image(&shelf.load(alloc, &THIRD)?, 5));
    assert!(rt; are_the_answers(shelf.loads()));
    let left = [
        (THIRD, "third"),
        (OTHER, "second guest"),
        (NAME, "third guest"),
    ];
    assert!(rt; are_files(&shelf.left(alloc)?, &left, 3));
    Ok(())
}

fn are_the_answers(loads: &[(CacheName, Loaded)]) -> bool {
    matches!(
        loads,
        [
            (_, Loaded::Found(_)),
            (_, Loaded::Nothing),
            (_, Loaded::Found(_)),
            (_, Loaded::Failed),
            (_, Loaded::Found(_)),
        ]
    )
}

// The same calls of the kind that does not fail.
#[test]
fn never_fails(rt: HostRuntime) -> Result<(), Fail> {
    let alloc = rt.alloc();
    let mut shelf = SureShelf::new(alloc, start_files(alloc)?, guests(alloc)?, 7);
    assert!(rt; is_image(&shelf.load(alloc, &NAME)?, 11));
    publish(alloc, &mut shelf, &THIRD, b"published")?;
    assert!(rt; is_image(&shelf.load(alloc, &THIRD)?, 9));
    assert_eq!(rt; shelf.loads().len(), 2);
    assert_eq!(rt; shelf.own(), [3].as_slice());
    assert_eq!(rt; shelf.past().len(), 4);
    let left = [
        (OTHER, "second guest"),
        (NAME, "third guest"),
        (THIRD, "published"),
    ];
    assert!(rt; are_files(&shelf.left(alloc)?, &left, 3));
    Ok(())
}

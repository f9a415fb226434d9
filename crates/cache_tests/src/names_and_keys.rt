//! Names of cache files, keys, and the events that keys decide.
use bs_outside::{Bytes, CacheKind, CacheName, Image, Kind, Stat};
use cache_key::{Event, cache_name, event_of, fnv1a, key_of, name_text};
use std::alloc::{AllocError, Global};
use std::test::Fail;

// The vectors of the hash's authors.
#[test]
fn hashes_are_the_authors(rt: HostRuntime) {
    let vectors: [(&[u8], u64); 6] = [
        (b"", 0xcbf29ce484222325),
        (b"a", 0xaf63dc4c8601ec8c),
        (b"b", 0xaf63df4c8601f1a5),
        (b"foo", 0xdcb27518fed9d577),
        (b"fooba", 0xcac165afa2fef40a),
        (b"foobar", 0x85944171f73967e8),
    ];
    for (text, hash) in vectors {
        assert_eq!(rt; fnv1a(text), hash);
    }
}

// Names made of the last of those.
#[test]
fn names_are_spelled(rt: HostRuntime) -> Result<(), Fail> {
    let texts: [(CacheKind, &[u8]); 3] = [
        (CacheKind::Iseq, b"iseq/85/944171f73967e8"),
        (CacheKind::Yaml, b"yaml/85/944171f73967e8"),
        (CacheKind::Json, b"json/85/944171f73967e8"),
    ];
    for (kind, text) in texts {
        let name = cache_name(kind, b"foobar");
        assert!(rt; name.kind == kind && name.hash == fnv1a(b"foobar"));
        assert_eq!(rt; name_text(rt.alloc(), &name)?.as_slice(), text);
    }
    let store = CacheName {
        kind: CacheKind::LoadPath,
        hash: 0,
    };
    let text = name_text(rt.alloc(), &store)?;
    assert_eq!(rt; text.as_slice(), b"load-path-cache".as_slice());
    Ok(())
}

fn stat_of(size: u64, mtime: u64) -> Stat {
    Stat {
        kind: Kind::File,
        size,
        mtime,
    }
}

// The key of an empty file of time 1 with a payload of 56 bytes, byte by byte.
#[test]
fn key_of_an_empty_file(rt: HostRuntime) {
    let key = key_of(&stat_of(0, 1), fnv1a(b""), 56);
    let bytes = b"\
        \x05\0\0\0\x01\0\0\0\0\0\0\0\x21\0\0\0\
        \0\0\0\0\0\0\0\0\x01\0\0\0\0\0\0\0\
        \x38\0\0\0\0\0\0\0\x25\x23\x22\x84\xe4\x9c\xf2\xcb\
        \x01\0\0\0\0\0\0\0\0\0\0\0\0\0\0\0";
    assert_eq!(rt; key.as_slice(), bytes.as_slice());
}

// The first `len` bytes of an entry of size 11, time 100, digest 7 and a payload of three bytes; the byte at `place`, if there is one, is another.
fn image_of(alloc: Global, len: usize, place: usize) -> Result<Option<Image>, AllocError> {
    let mut entry = key_of(&stat_of(11, 100), 7, 3).to_vec(alloc)?;
    entry.extend_from_slice(b"\x09\x08\x07\x06")?;
    entry.truncate(len);
    if let Some(byte) = entry.get_mut(place) {
        *byte ^= 128;
    }
    Ok(Some(Image::new(Bytes::from_vec(entry))))
}

// The whole entry, a file's size and time, the digest where it was read, and the event.
#[test]
fn files_decide_events(rt: HostRuntime) -> Result<(), Fail> {
    let entry = image_of(rt.alloc(), 67, 67)?;
    for (size, mtime, digest, event) in [
        (11, 100, None, Event::Hit),
        (11, 100, Some(7), Event::Hit),
        (11, 100, Some(8), Event::Hit),
        (11, 101, None, Event::Stale),
        (11, 101, Some(7), Event::Revalidated),
        (11, 101, Some(8), Event::Stale),
        (12, 100, None, Event::Stale),
        (12, 101, Some(7), Event::Stale),
    ] {
        assert_eq!(rt; event_of(&entry, &stat_of(size, mtime), digest), event);
    }
    assert_eq!(rt; event_of(&None, &stat_of(11, 100), Some(7)), Event::Miss);
    Ok(())
}

// An entry that has another length is stale.
#[test]
fn lengths_decide_events(rt: HostRuntime) -> Result<(), Fail> {
    for length in [0, 63, 64, 66, 68] {
        let entry = image_of(rt.alloc(), length, 68)?;
        assert_eq!(rt; event_of(&entry, &stat_of(11, 100), Some(7)), Event::Stale);
    }
    Ok(())
}

// The place of a byte that is another, a file's time, the digest where it was read, and the event.
#[test]
fn bytes_decide_events(rt: HostRuntime) -> Result<(), Fail> {
    for (place, mtime, digest, event) in [
        (66, 100, None, Event::Hit),
        (0, 100, Some(7), Event::Stale),
        (4, 100, Some(7), Event::Stale),
        (15, 100, Some(7), Event::Stale),
        (23, 100, Some(7), Event::Stale),
        (24, 100, Some(7), Event::Revalidated),
        (24, 100, None, Event::Stale),
        (32, 100, Some(7), Event::Stale),
        (39, 100, Some(7), Event::Stale),
        (40, 100, None, Event::Hit),
        (40, 101, Some(7), Event::Stale),
        (48, 100, Some(7), Event::Stale),
        (63, 100, Some(7), Event::Stale),
    ] {
        let entry = image_of(rt.alloc(), 67, place)?;
        assert_eq!(rt; event_of(&entry, &stat_of(11, mtime), digest), event);
    }
    Ok(())
}

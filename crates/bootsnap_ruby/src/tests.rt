//! One run of each adapter on files that the test writes itself. No clause says what a folder or a stream does.
ghost use Rattle.std.specs.Prelude.{◌≡◌, ◌<◌, ◌≤◌, IfOk};

use crate::folder::FolderTree;
use crate::shelf::FolderShelf;
use crate::streams::{Standard, StreamInput, StreamSink};
use bootsnap_top::Desk;
use bs_outside::{
    CacheKind, CacheName, Input, Kind, Shelf, ShelfFault, Sink, Temp, Text, Tree, put_all,
};
use std::alloc::Global;
use std::io::Cursor;
use std::rt::{Env, Files};
use std::{env, fs, io};

/// Goes into a new folder, which is this test's own.
pub fn enter<R: Env + Files + AllocGlobal>(rt: &R, folder: &str) -> io::Result<()> {
    let _ = fs::remove_dir_all(rt, folder);
    fs::create_dir(rt, folder)?;
    env::set_current_dir(rt, folder)
}

/// Goes back, and takes the folder away.
pub fn leave<R: Env + Files + AllocGlobal>(rt: &R, folder: &str) -> io::Result<()> {
    env::set_current_dir(rt, "..")?;
    fs::remove_dir_all(rt, folder)
}

#[test]
fn trees_have_files_and_folders_alone(rt: HostRuntime) -> anyhow::Result<()> {
    enter(&rt, "tree_of_the_test")?;
    let alloc = rt.alloc();
    fs::create_dir_all(&rt, "inner/deep")?;
    fs::write(&rt, "inner/a.rb", "puts 5\n")?;
    fs::create_dir(&rt, ".bootsnap")?;
    fs::write(&rt, ".bootsnap/b.rb", "puts 6\n")?;
    rt.symlink("inner", "link")?;
    rt.symlink("inner/a.rb", "c.rb")?;
    let mut tree = FolderTree::new(&rt);
    let rows: [(&[u8], Option<Kind>, u64); 12] = [
        (b"/", Some(Kind::Dir), 0),
        (b"/inner", Some(Kind::Dir), 0),
        (b"/inner/deep", Some(Kind::Dir), 0),
        (b"/inner/a.rb", Some(Kind::File), 7),
        (b"/link", None, 0),
        (b"/link/a.rb", None, 0),
        (b"/c.rb", None, 0),
        (b"/missing", None, 0),
        (b"/inner/a.rb/b", None, 0),
        (b"/.bootsnap", None, 0),
        (b"/.bootsnap/b.rb", None, 0),
        (b"/\xff", None, 0),
    ];
    for (path, kind, size) in rows.iter() {
        let path = Text::new(alloc, path)?;
        let stat = tree.stat(alloc, &path)?;
        assert!(rt; stat.map(|stat| stat.kind) == *kind, "{path:?}");
        assert!(rt; stat.map_or(0, |stat| stat.size) == *size, "{path:?}");
        let bytes = tree.read(alloc, &path)?;
        assert!(rt; bytes.is_some() == (*kind == Some(Kind::File)), "{path:?}");
        assert!(rt;
            bytes.map_or(0, |bytes| bytes.len() as u64) == *size,
            "{path:?}"
        );
        let listing = tree.list(alloc, &path)?;
        assert!(rt; listing.is_some() == (*kind == Some(Kind::Dir)), "{path:?}");
    }
    let lists: [(&[u8], &[(&[u8], Kind)]); 2] = [
        (b"/", &[(b"inner", Kind::Dir)]),
        (b"/inner", &[(b"a.rb", Kind::File), (b"deep", Kind::Dir)]),
    ];
    for (path, names) in lists.iter() {
        let listing = tree.list(alloc, &Text::new(alloc, path)?)?;
        let listing = listing.ok_or(anyhow::anyhow!("no folder"))?;
        assert!(rt; listing.len() == names.len());
        for (listed, (name, kind)) in listing.as_slice().iter().zip(names.iter()) {
            assert!(rt; listed.name.as_slice() == *name && listed.kind == *kind);
        }
    }
    leave(&rt, "tree_of_the_test")?;
    Ok(())
}

#[test]
fn streams_pass_bytes_on(rt: HostRuntime) -> anyhow::Result<()> {
    let alloc = rt.alloc();
    let mut input = StreamInput::new(Cursor::new(b"hello".as_slice()));
    let mut sink = StreamSink::new(Vec::new(alloc));
    let pieces: [(usize, &[u8]); 5] = [(3, b"hel"), (0, b""), (9, b"lo"), (9, b""), (1, b"")];
    for (max, piece) in pieces.iter() {
        let bytes = input.take(alloc, *max)?;
        assert!(rt; bytes.as_slice() == *piece);
        put_all(alloc, &mut sink, bytes.as_slice())?;
    }
    for standard in [Standard::Output(rt.stdout()), Standard::Error(rt.stderr())] {
        let mut sink = StreamSink::new(standard);
        assert!(rt; sink.put(alloc, b"")? == 0);
        put_all(alloc, &mut sink, b"\n")?;
    }
    Ok(())
}

const FOOBAR: CacheName = CacheName {
    kind: CacheKind::Iseq,
    hash: 0x85944171f73967e8,
};

const PATHS: CacheName = CacheName {
    kind: CacheKind::LoadPath,
    hash: 0,
};

fn is_file<R: Files>(rt: &R, path: &str) -> bool {
    match fs::symlink_metadata(rt, path) {
        Ok(found) => found.is_file(),
        Err(_) => false,
    }
}

/// How many names the folder has.
fn count_names<R: Files + AllocGlobal + Clone + Drop>(rt: &R, folder: &str) -> io::Result<usize> {
    Ok(fs::read_dir(rt, folder)?.count())
}

/// A temporary with 64 times `first` and then `second`, in two appends.
fn written<S: Shelf>(
    alloc: Global,
    shelf: &mut S,
    name: &CacheName,
    first: u8,
    second: &[u8],
) -> anyhow::Result<Temp>
    ensures given { IfOk result (λ temp. temp < S.begun shelf.new) }
    ensures later { S.begun shelf.old ≤ S.begun shelf.new }
{
    let temp = shelf.begin(alloc, name)?;
    let count = shelf.append(alloc, &temp, &[first; 64])?;
    anyhow::ensure!(count == 64, "a short append");
    let count = shelf.append(alloc, &temp, second)?;
    anyhow::ensure!(count == second.len(), "a short append");
    Ok(temp)
}

/// Whether the name's cache file is 64 times `first` and then `second`.
fn holds<S: Shelf>(
    alloc: Global,
    shelf: &mut S,
    name: &CacheName,
    first: u8,
    second: &[u8],
) -> anyhow::Result<bool>
    ensures { S.begun shelf.new ≡ S.begun shelf.old }
{
    match shelf.load(alloc, name)? {
        Some(image) => Ok(
            image.key() == Some([first; 64])
                && image.len() == 64u64.saturating_add(second.len() as u64),
        ),
        None => Ok(false),
    }
}

/// Publishes 64 times `first` and then `second`, and says whether the name has that only from the rename on.
fn is_published<S: Shelf>(
    alloc: Global,
    shelf: &mut S,
    name: &CacheName,
    first: u8,
    second: &[u8],
) -> anyhow::Result<bool> {
    let temp = written(alloc, shelf, name, first, second)?;
    let early = holds(alloc, shelf, name, first, second)?;
    shelf.rename(alloc, temp, name)?;
    Ok(!early && holds(alloc, shelf, name, first, second)?)
}

/// Whether two temporaries of one name are two files, and the one that is renamed last stands.
fn are_two<R: Files, S: Shelf>(rt: &R, alloc: Global, shelf: &mut S) -> anyhow::Result<bool> {
    let one = written(alloc, shelf, &FOOBAR, 6, b"first")?;
    let two = written(alloc, shelf, &FOOBAR, 7, b"second")?;
    let both = is_file(rt, ".bootsnap/iseq/85/944171f73967e8.tmp.0")
        && is_file(rt, ".bootsnap/iseq/85/944171f73967e8.tmp.1");
    shelf.rename(alloc, two, &FOOBAR)?;
    shelf.rename(alloc, one, &FOOBAR)?;
    Ok(both && holds(alloc, shelf, &FOOBAR, 6, b"first")?)
}

#[test]
fn shelves_publish_by_rename(rt: HostRuntime) -> anyhow::Result<()> {
    enter(&rt, "shelf_of_the_test")?;
    let alloc = rt.alloc();
    let mut shelf = FolderShelf::new(&rt, alloc);
    assert!(rt; shelf.load(alloc, &FOOBAR)?.is_none());
    assert!(rt; count_names(&rt, ".bootsnap")? == 0);
    let rows: [(CacheName, u8, &[u8]); 4] = [
        (FOOBAR, 1, b"old"),
        (FOOBAR, 2, b"new"),
        (FOOBAR, 3, b""),
        (PATHS, 4, b"paths"),
    ];
    for (name, first, second) in rows.iter() {
        assert!(rt; is_published(alloc, &mut shelf, name, *first, second)?);
    }
    assert!(rt; are_two(&rt, alloc, &mut shelf)?);
    assert!(rt; fs::read(&rt, ".bootsnap/iseq/85/944171f73967e8")?.ends_with(b"\x06first"));
    assert!(rt; fs::read(&rt, ".bootsnap/load-path-cache")?.ends_with(b"\x04paths"));
    assert!(rt; count_names(&rt, ".bootsnap")? == 2);
    assert!(rt; count_names(&rt, ".bootsnap/iseq/85")? == 1);
    leave(&rt, "shelf_of_the_test")?;
    Ok(())
}

const PLACE: &str = ".bootsnap/iseq/85/944171f73967e8";

/// Whether a new shelf finds nothing under the name and cannot begin a temporary.
fn is_shut<R: Files + AllocGlobal + Clone + Drop>(rt: &R, alloc: Global) -> anyhow::Result<bool> {
    let mut shelf = FolderShelf::new(rt, alloc);
    let found = shelf.load(alloc, &FOOBAR)?;
    match shelf.begin(alloc, &FOOBAR) {
        Err(ShelfFault::Failed) => Ok(found.is_none()),
        _ => Ok(false),
    }
}

#[test]
fn shelves_go_through_no_link(rt: HostRuntime) -> anyhow::Result<()> {
    enter(&rt, "links_of_the_test")?;
    let alloc = rt.alloc();
    fs::create_dir_all(&rt, "elsewhere/iseq/85")?;
    fs::write(&rt, "elsewhere/iseq/85/944171f73967e8", "found")?;
    fs::write(&rt, ".bootsnap", "no folder")?;
    assert!(rt; is_shut(&rt, alloc)?);
    fs::remove_file(&rt, ".bootsnap")?;
    rt.symlink("elsewhere", ".bootsnap")?;
    assert!(rt; is_shut(&rt, alloc)?);
    fs::remove_file(&rt, ".bootsnap")?;
    fs::create_dir(&rt, ".bootsnap")?;
    rt.symlink("../elsewhere/iseq", ".bootsnap/iseq")?;
    assert!(rt; is_shut(&rt, alloc)?);
    assert!(rt; count_names(&rt, "elsewhere/iseq/85")? == 1);
    leave(&rt, "links_of_the_test")?;
    Ok(())
}

#[test]
fn shelves_fail_and_go_on(rt: HostRuntime) -> anyhow::Result<()> {
    enter(&rt, "faults_of_the_test")?;
    let alloc = rt.alloc();
    let mut desk = Desk {
        tree: FolderTree::new(&rt),
        shelf: FolderShelf::new(&rt, alloc),
    };
    assert!(rt; is_sent(&desk));
    let shelf = &mut desk.shelf;
    // A folder stands where the file has to go.
    fs::create_dir_all(&rt, ".bootsnap/iseq/85/944171f73967e8/inner")?;
    assert!(rt; shelf.load(alloc, &FOOBAR)?.is_none());
    let temp = written(alloc, shelf, &FOOBAR, 1, b"")?;
    let ended = Temp::new(temp.number());
    assert!(rt; shelf.rename(alloc, temp, &FOOBAR).is_err());
    assert!(rt; shelf.append(alloc, &ended, b"more").is_err());
    assert!(rt; shelf.rename(alloc, ended, &FOOBAR).is_err());
    assert!(rt; count_names(&rt, ".bootsnap/iseq/85")? == 1);
    // The last of the thousand names, and none.
    for number in 0..999 {
        fs::write(&rt, format!(in alloc; "{PLACE}.tmp.{number}")?, "")?;
    }
    let last = shelf.begin(alloc, &FOOBAR)?;
    assert!(rt; is_file(&rt, ".bootsnap/iseq/85/944171f73967e8.tmp.999"));
    assert!(rt; shelf.begin(alloc, &FOOBAR).is_err());
    shelf.rename(alloc, last, &PATHS)?;
    assert!(rt;
        shelf
            .load(alloc, &PATHS)?
            .is_some_and(|image| image.len() == 0)
    );
    leave(&rt, "faults_of_the_test")?;
    Ok(())
}

fn is_sent<T: Send>(_object: &T) -> bool {
    true
}

//! Trees in memory.
use bs_outside::{Bytes, Kind, Listing, NoMemory, Text, Tree, TreeFault};
use mem_outside::{MemItem, MemTree, SureTree};
use std::alloc::Global;
use std::test::Fail;

type Entries = Vec<(Text, MemItem)>;

// The small tree's files with their bytes, each of time 7, and its folders with their times, without `/`.
const FILES: [(&str, &str); 4] = [
    ("/lib/b.rb", "bb"),
    ("/lib/a.rb", ""),
    ("/lib/x/deep.rb", "d"),
    ("/library.rb", "l"),
];

const FOLDERS: [(&str, u64); 3] = [("/lib", 3), ("/", 1), ("/lib/x", 2)];

fn folder(alloc: Global, path: &str, time: u64) -> Result<(Text, MemItem), NoMemory> {
    Ok((Text::new(alloc, path.as_bytes())?, MemItem::Dir(time)))
}

fn small_tree(alloc: Global) -> Result<Entries, NoMemory> {
    let mut items = Vec::new(alloc);
    for (path, bytes) in FILES {
        let bytes = Bytes::new(alloc, bytes.as_bytes())?;
        items.push((Text::new(alloc, path.as_bytes())?, MemItem::File(bytes, 7)))?;
    }
    for (path, time) in FOLDERS {
        items.push(folder(alloc, path, time)?)?;
    }
    Ok(items)
}

// A path, and what a stat of it answers: the kind, the size and the time.
#[test]
fn stats_answer_as_the_list_says(rt: HostRuntime) -> Result<(), Fail> {
    let alloc = rt.alloc();
    let mut tree = SureTree::new(alloc, small_tree(alloc)?)?.expect(&rt, "a source tree");
    for (path, wanted) in [
        ("/lib/b.rb", Some((Kind::File, 2, 7))),
        ("/lib", Some((Kind::Dir, 0, 3))),
        ("/li", None),
    ] {
        let found = tree.stat(alloc, &Text::new(alloc, path.as_bytes())?)?;
        let told = found.map(|stat| (stat.kind, stat.size, stat.mtime));
        assert!(rt; told == wanted, "{path}");
    }
    assert_eq!(rt; tree.stats().len(), 3);
    Ok(())
}

// The names with a blank behind each, or nothing of no folder.
fn spelled(alloc: Global, found: Option<Listing>) -> Result<Option<Vec<u8>>, NoMemory> {
    let Some(names) = found else {
        return Ok(None);
    };
    let mut all = Vec::new(alloc);
    for listed in names.as_slice() {
        all.extend_from_slice(listed.name.as_slice())?;
        all.push(b' ')?;
    }
    Ok(Some(all))
}

#[test]
fn lists_answer_as_the_list_says(rt: HostRuntime) -> Result<(), Fail> {
    let alloc = rt.alloc();
    let mut tree = SureTree::new(alloc, small_tree(alloc)?)?.expect(&rt, "a source tree");
    for (path, wanted) in [
        ("/lib", Some("a.rb b.rb x ")),
        ("/", Some("lib library.rb ")),
        ("/lib/b.rb", None),
    ] {
        let found = tree.list(alloc, &Text::new(alloc, path.as_bytes())?)?;
        let names = spelled(alloc, found)?;
        assert!(rt;
            names.as_deref() == wanted.map(|names| names.as_bytes()),
            "{path}"
        );
    }
    Ok(())
}

#[test]
fn reads_answer_as_the_list_says(rt: HostRuntime) -> Result<(), Fail> {
    let alloc = rt.alloc();
    let mut tree = SureTree::new(alloc, small_tree(alloc)?)?.expect(&rt, "a source tree");
    let bytes = tree.read(alloc, &Text::new(alloc, b"/lib/b.rb")?)?;
    assert!(rt; bytes.is_some_and(|bytes| bytes.as_slice() == b"bb".as_slice()));
    assert!(rt; tree.read(alloc, &Text::new(alloc, b"/lib")?)?.is_none());
    Ok(())
}

#[test]
fn calls_fail_as_the_list_says(rt: HostRuntime) -> Result<(), Fail> {
    let alloc = rt.alloc();
    let lib = Text::new(alloc, b"/lib")?;
    let main = Text::new(alloc, b"/lib/b.rb")?;
    let fail = vec![in alloc; 2, 3]?;
    let mut tree = MemTree::new(alloc, small_tree(alloc)?, fail)?.expect(&rt, "a source tree");
    assert!(rt; tree.stat(alloc, &lib)?.is_some());
    assert!(rt; matches!(tree.list(alloc, &lib), Err(TreeFault::Failed)));
    assert!(rt; matches!(tree.read(alloc, &main), Err(TreeFault::Failed)));
    assert!(rt; tree.read(alloc, &main)?.is_some());
    assert_eq!(rt; tree.reads().len(), 1);
    Ok(())
}

#[test]
fn lists_of_no_source_tree_are_refused(rt: HostRuntime) -> Result<(), Fail> {
    let alloc = rt.alloc();
    for (path, time) in [
        ("/lib", 3),
        ("/lib/", 3),
        ("lib2", 3),
        ("/none/x", 3),
        ("/library.rb/x", 3),
        ("/late", 1 << 63),
    ] {
        let mut items = small_tree(alloc)?;
        items.push(folder(alloc, path, time)?)?;
        assert!(rt; SureTree::new(alloc, items)?.is_none(), "{path}");
    }
    let mut items = Vec::new(alloc);
    items.push(folder(alloc, "/lib", 3)?)?;
    assert!(rt; SureTree::new(alloc, items)?.is_none());
    Ok(())
}

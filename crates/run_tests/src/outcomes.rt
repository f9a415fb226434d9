//! One call over the outside in memory, and what it left.
ghost use Rattle.std.specs.Prelude.{◌≡◌, ◌<◌};

use bootsnap_top::{Desk, bootsnap, status};
use bs_outside::{Bytes, CacheKind, CacheName, NoMemory, Steps, Text};
use cache_key::cache_name;
use mem_outside::{MemItem, MemShelf, MemSink, MemTree, SureInput};
use std::alloc::Global;
use std::marker::Brand;
use std::sync::ledger::{Blank, Ledger};
use std::test::Fail;
use std::thread::Threads;

/// Cache files by their names.
pub type Entries = Vec<(CacheName, Bytes)>;

/// A file of a tree.
#[derive(Clone, Copy)]
pub struct Source<'a> {
    pub path: &'a str,
    pub text: &'a [u8],
    pub mtime: u64,
}

/// What a call finds. Of each of these the calls with its numbers, counted from 1, fail.
#[derive(Drop)]
pub struct Outside {
    pub tree: MemTree,
    pub shelf: MemShelf,
    pub output: MemSink,
    pub errors: MemSink,
}

/// What a call left.
#[derive(Drop)]
pub struct Outcome {
    pub status: u8,
    pub output: MemSink,
    pub errors: MemSink,
    pub notes: MemSink,
    desks: [Desk<MemTree, MemShelf>; 1],
}

impl Outcome {
    /// Whether it ended with this number, and this was written and noted.
    pub fn is(&self, status: u8, output: &str, errors: &str, notes: &str) -> bool {
        self.status == status
            && self.output.bytes() == output.as_bytes()
            && self.errors.bytes() == errors.as_bytes()
            && self.notes.bytes() == notes.as_bytes()
    }

    /// Whether there were so many stats and reads, and so many entries joined the cache.
    pub fn asked(&self, stats: usize, reads: usize, past: usize) -> bool {
        let [desk] = &self.desks;
        desk.tree.stats().len() == stats
            && desk.tree.reads().len() == reads
            && desk.shelf.past().len() == past
    }

    /// The shelf of the one desk.
    pub fn shelf(&self) -> &MemShelf {
        let [desk] = &self.desks;
        &desk.shelf
    }

    /// The first entry that joined the cache, where its name is that of the path.
    pub fn entry(&self, path: &str) -> Option<&[u8]> {
        let (name, bytes) = self.shelf().past().first()?;
        if *name == cache_name(CacheKind::Iseq, path.as_bytes()) {
            Some(bytes.as_slice())
        } else {
            None
        }
    }
}

/// The words between the spaces of the line.
pub fn words_of(alloc: Global, line: &str) -> Result<Vec<Text>, NoMemory> {
    let mut words = Vec::new(alloc);
    for word in line.split_whitespace() {
        words.push(Text::new(alloc, word.as_bytes())?)?;
    }
    Ok(words)
}

/// A tree of these files, which lie in `/`, whose call with this number fails.
pub fn tree_of(alloc: Global, sources: &[Source<'_>], fail: u64) -> Result<MemTree, Fail> {
    let mut items = Vec::new(alloc);
    items.push((Text::new(alloc, b"/")?, MemItem::Dir(1)))?;
    for source in sources {
        let file = MemItem::File(Bytes::new(alloc, source.text)?, source.mtime);
        items.push((Text::new(alloc, source.path.as_bytes())?, file))?;
    }
    let tree = MemTree::new(alloc, items, vec![in alloc; fail]?)?;
    Ok(tree.ok_or("no source tree")?)
}

/// A shelf on which these entries stand, and none of whose calls fails.
pub fn shelf_of(alloc: Global, start: Entries) -> MemShelf {
    MemShelf::new(alloc, start, Vec::new(alloc), Vec::new(alloc), 50)
}

/// One call with these words. The input is empty.
fn call<H: Threads + Sync, L: Ledger>(
    threads: &H,
    alloc: Global,
    words: &[Text],
    outside: Outside,
    blank: Blank,
) -> Result<Outcome, NoMemory>
    requires name { blank.name ≡ L.name }
    requires parts { blank.parts ≡ L.parts }
    requires some { blank.parts ≡ 1 }
{
    let Outside {
        tree,
        shelf,
        mut output,
        mut errors,
    } = outside;
    let mut desks = [Desk { tree, shelf }];
    let mut input = SureInput::new(Bytes::new(alloc, b"")?);
    let mut notes = MemSink::new(alloc, Vec::new(alloc));
    let mut steps = Steps::<L>::new(blank);
    let done = bootsnap(
        threads,
        alloc,
        words,
        &mut desks,
        &mut input,
        &mut output,
        &mut errors,
        &mut notes,
        &mut steps,
    );
    Ok(Outcome {
        status: status(&done.ending),
        output,
        errors,
        notes,
        desks,
    })
}

/// What a call with the words of the line comes to.
pub fn outcome_of<H: Threads + Sync>(
    threads: &H,
    alloc: Global,
    line: &str,
    outside: Outside,
) -> Result<Outcome, Fail> {
    let words = words_of(alloc, line)?;
    Ok(call::<H, Brand>(threads, alloc, &words, outside, Blank::new(1))?)
}

/// What it comes to over a tree of this file alone and this shelf, where no other call fails.
pub fn outcome_over<H: Threads + Sync>(
    threads: &H,
    alloc: Global,
    line: &str,
    source: &Source<'_>,
    shelf: MemShelf,
) -> Result<Outcome, Fail> {
    let outside = Outside {
        tree: tree_of(alloc, &[*source], 0)?,
        shelf,
        output: MemSink::new(alloc, Vec::new(alloc)),
        errors: MemSink::new(alloc, Vec::new(alloc)),
    };
    outcome_of(threads, alloc, line, outside)
}

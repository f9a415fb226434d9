//! Files and folders by their paths, in an index.
ghost use Rattle.std.specs.Prelude.{◌≡◌, ◌<◌, ◌^◌, ◌&&◌, ◌++◌, [], not, true, if◌then◌else◌, is_some, IfOk, IfSome, OnOk};
ghost use Rattle.std.specs.Option.{option_copied};
ghost use Rattle.std.specs.List.{All};
ghost use Rattle.std.specs.FinMap as map;
ghost use Rattle.bs_outside.specs.Paths.{is_segment, parent_of};
ghost use Rattle.bs_outside.specs.SourceTree.{stat_at, list_at, bytes_at, time_of, kind_of, stem_of, name_below, names_below, put_name, is_folder, IsSourceTree};
ghost use Rattle.mem_outside.specs.TreeLists.{map_of, is_entry, has_place, is_closed, is_tree_list};

use bs_outside::{
    Bytes, Item, Items, Kind, Listed, Listing, NoMemory, Stat, Text, TextMap, is_normal_path,
    is_segment, parent,
};
use std::alloc::Global;
use std::collections::BTreeMap;
use std::marker::Model;

/// Files and folders by their paths.
#[derive(Drop, Debug)]
pub struct Files {
    items: TextMap<Item>,
}

impl Model for Files {
    ghost use Rattle.std.specs.FinMap as map;
    ghost use Rattle.bs_outside.specs.SourceTree.{SourceTree};
    ghost use Rattle.std.specs.Coded.{coded_ℕ, coded_list};
    ghost use Rattle.bs_outside.specs.contracts.trees.Item as item;
    ghost use Rattle.mem_outside.specs.TreeLists.{IsTimely};

    ghost Value = { SourceTree };

    ghost coded = { map.code (coded_list coded_ℕ) item.the_row.coded };

    ghost view = { λ a. a.items };

    ghost invariant = { λ a. IsTimely a.items };
}

impl Files {
    /// What stands at the path.
    fn at(&self, path: &Text) -> Option<&Item>
        ensures found { option_copied result ≡ map.get self.now path.now }
        ensures time { IfSome result (λ item. time_of item.now < 2 ^ 63) }
    {
        self.items.get(path)
    }

    /// What a stat of the path answers.
    pub fn stat(&self, path: &Text) -> Option<Stat>
        ensures answer { result ≡ stat_at self.now path.now }
        ensures time { IfSome result (λ stat. stat.mtime < 2 ^ 63) }
    {
        match self.at(path) {
            Some(Item::File(bytes, mtime)) => Some(Stat {
                kind: Kind::File,
                size: bytes.as_slice().len() as u64,
                mtime: *mtime,
            }),
            Some(Item::Dir(mtime)) => Some(Stat {
                kind: Kind::Dir,
                size: 0,
                mtime: *mtime,
            }),
            None => None,
        }
    }

    /// A copy of the bytes of the file at the path.
    pub fn read(&self, alloc: Global, path: &Text) -> Result<Option<Bytes>, NoMemory>
        ensures { IfOk result (λ found. found ≡ bytes_at self.now path.now) }
    {
        match self.at(path) {
            Some(Item::File(bytes, _)) => Ok(Some(Bytes::new(alloc, bytes.as_slice())?)),
            Some(Item::Dir(_)) => Ok(None),
            None => Ok(None),
        }
    }

    /// The names in the folder at the path.
    pub fn list(&self, alloc: Global, path: &Text) -> Result<Option<Listing>, NoMemory>
        ensures answer { IfOk result (λ found. found ≡ list_at self.now path.now) }
        ensures names { IfOk result (λ found. IfSome found (λ names. All (λ listed. is_segment listed.name ≡ true) names)) }
    {
        match self.at(path) {
            Some(Item::Dir(_)) => {
                let stem = stem(alloc, path.as_slice())?;
                Ok(Some(names_in(alloc, self.items.index(), &stem)?))
            }
            Some(Item::File(_, _)) => Ok(None),
            None => Ok(None),
        }
    }

    /// The files and folders of the list, or nothing where it is not the list of a source tree: where a path is not normal or stands
    /// twice, a time is 2^63 or more, `/` does not stand, or a path lies in no folder of the list.
    pub fn from_items(alloc: Global, items: Vec<(Text, Item)>) -> Result<Option<Files>, NoMemory>
        ensures made { IfOk result (λ made. is_some made ≡ is_tree_list items.items) }
        ensures files { IfOk result (λ made. IfSome made (λ files. files ≡ map_of items.items)) }
        ensures tree { IfOk result (λ made. IfSome made IsSourceTree) }
    {
        let mut files = Files::new(alloc);
        let mut rest = items;
        while let Some((path, item)) = rest.pop() {
            if !files.add(path, item)? {
                return Ok(None);
            }
        }
        if files.is_closed(alloc)? {
            Ok(Some(files))
        } else {
            Ok(None)
        }
    }

    /// No files and folders.
    fn new(alloc: Global) -> Files
        ensures { result ≡ map.empty }
    {
        Files {
            items: TextMap::new(alloc),
        }
    }

    /// Puts an entry at a path where there is none, and answers whether it was an entry, and there was none.
    fn add(&mut self, path: Text, item: Item) -> Result<bool, NoMemory>
        ensures fresh { IfOk result (λ fresh. fresh ≡ (is_entry (path, item) && not (map.contains_key self.old path))) }
        ensures added { IfOk result (λ fresh. self.new ≡ (if fresh then map.insert self.old path item else self.old)) }
    {
        if !is_entry(&path, &item) || self.at(&path).is_some() {
            return Ok(false);
        }
        self.items.insert(path, item)?;
        Ok(true)
    }

    /// Whether `/` stands, and each path lies in a folder.
    fn is_closed(&self, alloc: Global) -> Result<bool, NoMemory>
        ensures { IfOk result (λ closed. closed ≡ is_closed self.now) }
    {
        if self.at(&Text::new(alloc, b"/")?).is_none() {
            return Ok(false);
        }
        for (path, _) in self.items.index() {
            if !self.has_place(alloc, path)? {
                return Ok(false);
            }
        }
        Ok(true)
    }

    fn has_place(&self, alloc: Global, path: &Text) -> Result<bool, NoMemory>
        ensures { IfOk result (λ has. has ≡ has_place self.now path.now) }
    {
        if path.as_slice() == b"/".as_slice() {
            return Ok(true);
        }
        let parent = Text::new(alloc, parent(path.as_slice()))?;
        match self.at(&parent) {
            Some(Item::Dir(_)) => Ok(true),
            Some(Item::File(_, _)) => Ok(false),
            None => Ok(false),
        }
    }
}

fn time_of(item: &Item) -> u64
    ensures { result ≡ time_of item.now }
{
    match item {
        Item::File(_, mtime) => *mtime,
        Item::Dir(mtime) => *mtime,
    }
}

fn is_entry(path: &Text, item: &Item) -> bool
    ensures { result ≡ is_entry (path.now, item.now) }
{
    is_normal_path(path.as_slice()) && time_of(item) < 1 << 63
}

/// The folder and a slash.
fn stem(alloc: Global, folder: &[u8]) -> Result<Vec<u8>, NoMemory>
    ensures { IfOk result (λ stem. stem.items ≡ stem_of folder.now) }
{
    let mut stem = Vec::from_slice(alloc, folder)?;
    if folder != b"/".as_slice() {
        stem.push(b'/')?;
    }
    Ok(stem)
}

/// The name of a path right below the stem.
fn name_below(alloc: Global, stem: &[u8], path: &[u8]) -> Result<Option<Text>, NoMemory>
    ensures name { IfOk result (λ name. name ≡ name_below stem.now path.now) }
    ensures segment { IfOk result (λ name. IfSome name (λ name. is_segment name ≡ true)) }
{
    match path.strip_prefix(stem) {
        Some(name) => {
            if is_segment(alloc, name)? {
                Ok(Some(Text::new(alloc, name)?))
            } else {
                Ok(None)
            }
        }
        None => Ok(None),
    }
}

fn kind_of(item: &Item) -> Kind
    ensures { result ≡ kind_of item.now }
{
    match item {
        Item::File(_, _) => Kind::File,
        Item::Dir(_) => Kind::Dir,
    }
}

/// The names right below the stem.
fn names_in(alloc: Global, items: &BTreeMap<Text, Item>, stem: &[u8]) -> Result<Listing, NoMemory>
    ensures answer { IfOk result (λ names. names ≡ names_below stem.now items.now.entries) }
    ensures names { IfOk result (λ names. All (λ listed. is_segment listed.name ≡ true) names) }
{
    let mut names = Items::new(alloc);
    for (path, item) in items {
        put_below(alloc, &mut names, stem, path, item)?;
    }
    Ok(names)
}

/// Puts the name of a path right below the stem at the end.
fn put_below(
    alloc: Global,
    names: &mut Listing,
    stem: &[u8],
    path: &Text,
    item: &Item,
) -> Result<(), NoMemory>
    ensures put { OnOk result (names.new ≡ names.old ++ put_name (name_below stem.now path.now) item.now []) }
    ensures segments { OnOk result (All (λ listed. is_segment listed.name ≡ true) names.old → All (λ listed. is_segment listed.name ≡ true) names.new) }
{
    if let Some(name) = name_below(alloc, stem, path.as_slice())? {
        let kind = kind_of(item);
        names.push(Listed { name, kind })?;
    }
    Ok(())
}

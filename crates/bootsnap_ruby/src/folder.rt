//! The folder in which the program runs, as a source tree. Nothing above it is seen.
ghost use Rattle.std.specs.Prelude.{◌≡◌, ◌<◌, ◌≤◌, ◌^◌, true, None, IfOk, IfSome};
ghost use Rattle.std.specs.List.{All};
ghost use Rattle.bs_outside.specs.Paths.{is_segment};
ghost use Rattle.bs_outside.specs.Told.{Rose};

use crate::faults::Faults;
use bs_outside::{Bytes, Items, Kind, Listed, Listing, Stat, Text, Tree, TreeFault, is_segment};
use std::alloc::Global;
use std::collections::BTreeMap;
use std::fs::Metadata;
use std::io::{ErrorKind, Read};
use std::rt::Files;
use std::time::UNIX_EPOCH;
use std::{fs, io};

/// The most bytes that a file may have.
const FILE_LIMIT: usize = 1_073_741_824;

/// The most names that a folder may have.
const NAME_LIMIT: usize = 1_048_576;

/// The folder of the cache, which is no part of the source tree.
pub(crate) const CACHE_FOLDER: &str = ".bootsnap";

/// The folder in which the program runs. Links, devices, names that are not UTF-8 and the cache's folder are not there.
#[derive(Drop)]
pub struct FolderTree<'a, R> {
    rt: &'a R,
    faults: Faults,
}

impl<'a, R> FolderTree<'a, R> {
    /// No call failed yet.
    pub fn new(rt: &'a R) -> Self {
        FolderTree {
            rt,
            faults: Faults::new(),
        }
    }
}

impl<R: Files + AllocGlobal + Clone + Drop> Tree for FolderTree<'_, R> {
    ghost contents = { λ t. None };

    ghost stats = { λ t. None };

    ghost listings = { λ t. None };

    ghost reads = { λ t. None };

    ghost faults = { λ t. t.faults };

    fn stat(&mut self, _alloc: Global, path: &Text) -> Result<Option<Stat>, TreeFault> {
        match stat_of(self.rt, path.as_slice()) {
            Ok(found) => Ok(found),
            Err(error) => Err(tree_fault(&mut self.faults, &error)),
        }
    }

    fn list(&mut self, alloc: Global, path: &Text) -> Result<Option<Listing>, TreeFault> {
        match names_of(self.rt, alloc, path.as_slice()) {
            Ok(found) => Ok(found),
            Err(error) => Err(tree_fault(&mut self.faults, &error)),
        }
    }

    fn read(&mut self, alloc: Global, path: &Text) -> Result<Option<Bytes>, TreeFault> {
        match bytes_of(self.rt, alloc, path.as_slice()) {
            Ok(found) => Ok(found),
            Err(error) => Err(tree_fault(&mut self.faults, &error)),
        }
    }
}

/// What a call answers after the error. All but want of memory is counted.
fn tree_fault(faults: &mut Faults, error: &io::Error) -> TreeFault
    ensures counted { faults.old ≤ faults.new }
    ensures failed { result ≡ TreeFault.Failed → Rose faults.old faults.new }
{
    if faults.is_memory(error) {
        TreeFault::NoMemory
    } else {
        TreeFault::Failed
    }
}

/// The path from the folder in which the program runs, where it is text and not in the cache's folder.
fn relative(path: &[u8]) -> Option<&str> {
    let Ok(text) = std::str::from_utf8(path) else {
        return None;
    };
    if text == "/" {
        return Some(".");
    }
    let rest = text.strip_prefix('/')?;
    match rest.split('/').next() {
        Some(first) if first == CACHE_FOLDER => None,
        _ => Some(rest),
    }
}

/// What stands at the path itself, no link followed at its end.
pub(crate) fn entry<R: Files>(rt: &R, path: &str) -> io::Result<Option<Metadata>> {
    match fs::symlink_metadata(rt, path) {
        Ok(found) => Ok(Some(found)),
        Err(error) => match error.kind() {
            ErrorKind::NotFound | ErrorKind::NotADirectory | ErrorKind::InvalidFilename => Ok(None),
            _ => Err(error),
        },
    }
}

/// Whether each folder above the path is a folder, and no link.
pub(crate) fn is_below_folders<R: Files>(rt: &R, path: &str) -> io::Result<bool> {
    for end in 1..path.len() {
        if let Some((above, rest)) = path.split_at_checked(end)
            && rest.starts_with('/')
        {
            match entry(rt, above)? {
                Some(found) if found.is_dir() => {}
                _ => return Ok(false),
            }
        }
    }
    Ok(true)
}

/// The file or folder at the path.
fn found_at<R: Files>(rt: &R, path: &str) -> io::Result<Option<Metadata>> {
    if !is_below_folders(rt, path)? {
        return Ok(None);
    }
    match entry(rt, path)? {
        Some(found) if found.is_file() || found.is_dir() => Ok(Some(found)),
        _ => Ok(None),
    }
}

fn stat_of<R: Files>(rt: &R, path: &[u8]) -> io::Result<Option<Stat>>
    ensures { IfOk result (λ found. IfSome found (λ stat. stat.mtime < 2 ^ 63)) }
{
    let Some(path) = relative(path) else {
        return Ok(None);
    };
    let Some(found) = found_at(rt, path)? else {
        return Ok(None);
    };
    let mtime = seconds(&found)?;
    if found.is_file() {
        Ok(Some(Stat {
            kind: Kind::File,
            size: found.len(),
            mtime,
        }))
    } else {
        Ok(Some(Stat {
            kind: Kind::Dir,
            size: 0,
            mtime,
        }))
    }
}

/// When it was changed, in whole seconds since 1970. An earlier time counts as 0.
fn seconds(found: &Metadata) -> io::Result<u64>
    ensures { IfOk result (λ mtime. mtime < 2 ^ 63) }
{
    match found.modified()?.duration_since(UNIX_EPOCH) {
        Ok(since) => Ok(since.as_secs().min(i64::MAX as u64)),
        Err(_) => Ok(0),
    }
}

fn bytes_of<R: Files>(rt: &R, alloc: Global, path: &[u8]) -> io::Result<Option<Bytes>> {
    match relative(path) {
        Some(path) => file_bytes(rt, alloc, path),
        None => Ok(None),
    }
}

/// The bytes of the file at the path, where one stands there.
pub(crate) fn file_bytes<R: Files>(rt: &R, alloc: Global, path: &str) -> io::Result<Option<Bytes>> {
    match found_at(rt, path)? {
        Some(found) if found.is_file() => {}
        _ => return Ok(None),
    }
    match fs::open(rt, path) {
        Ok(mut file) => Ok(Some(Bytes::from_vec(read_all(alloc, &mut file)?))),
        Err(error) => match error.kind() {
            // Somebody took it away after the look.
            ErrorKind::NotFound | ErrorKind::NotADirectory => Ok(None),
            _ => Err(error),
        },
    }
}

/// All that the reader gives, up to the limit, counted as it is read.
fn read_all<F: Read>(alloc: Global, file: &mut F) -> io::Result<Vec<u8>> {
    let mut all = Vec::new(alloc);
    let mut buffer = [0u8; 16384];
    for _ in 0..u64::MAX {
        let count = file.read(&mut buffer)?;
        if count == 0 {
            return Ok(all);
        }
        if count > FILE_LIMIT.saturating_sub(all.len()) {
            break;
        }
        all.extend_from_slice(&buffer[..count])?;
    }
    Err(io::Error::from(ErrorKind::FileTooLarge))
}

fn names_of<R: Files + AllocGlobal + Clone + Drop>(
    rt: &R,
    alloc: Global,
    path: &[u8],
) -> io::Result<Option<Listing>>
    ensures { IfOk result (λ found. IfSome found (λ names. All (λ listed. is_segment listed.name ≡ true) names)) }
{
    let Some(path) = relative(path) else {
        return Ok(None);
    };
    match found_at(rt, path)? {
        Some(found) if found.is_dir() => {
            let mut names = entries_of(rt, alloc, path)?;
            if path == "." {
                names.remove(&Text::new(alloc, CACHE_FOLDER.as_bytes())?);
            }
            Ok(Some(in_order(alloc, names)?))
        }
        _ => Ok(None),
    }
}

/// The files and folders in the folder. A name that is not UTF-8 is left out.
fn entries_of<R: Files + AllocGlobal + Clone + Drop>(
    rt: &R,
    alloc: Global,
    path: &str,
) -> io::Result<BTreeMap<Text, Kind>> {
    let mut found = BTreeMap::new(alloc);
    for entry in fs::read_dir(rt, path)? {
        if found.len() == NAME_LIMIT {
            return Err(io::Error::from(ErrorKind::FileTooLarge));
        }
        match entry {
            Ok(entry) => {
                if let Some(kind) = kind_of(&entry.metadata()?) {
                    found.insert(Text::new(alloc, entry.file_name().as_bytes())?, kind)?;
                }
            }
            Err(error) if error.kind() == ErrorKind::InvalidFilename => {}
            Err(error) => return Err(error),
        }
    }
    Ok(found)
}

/// The names in their order.
fn in_order(alloc: Global, found: BTreeMap<Text, Kind>) -> io::Result<Listing>
    ensures { IfOk result (λ names. All (λ listed. is_segment listed.name ≡ true) names) }
{
    let mut names = Items::new(alloc);
    for (name, kind) in found {
        if is_segment(alloc, name.as_slice())? {
            names.push(Listed { name, kind })?;
        }
    }
    Ok(names)
}

/// What it is in a tree, where it is no link and no device.
fn kind_of(found: &Metadata) -> Option<Kind> {
    if found.is_file() {
        Some(Kind::File)
    } else if found.is_dir() {
        Some(Kind::Dir)
    } else {
        None
    }
}

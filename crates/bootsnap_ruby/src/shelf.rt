//! The folder of the cache, as a shelf of cache files.
ghost use Rattle.std.specs.Prelude.{◌≡◌, ◌<◌, ◌≤◌, false, length, IfOk};
ghost use Rattle.bs_outside.specs.Told.{Rose};
ghost use Rattle.mem_outside.specs.Nothing.{nothing_told};

use crate::faults::Faults;
use crate::folder::{CACHE_FOLDER, entry, file_bytes, is_below_folders};
use crate::streams::write_some;
use bs_outside::{CacheName, Image, Shelf, ShelfFault, Temp};
use cache_key::name_text;
use std::alloc::Global;
use std::fs::File;
use std::io::{ErrorKind, Write};
use std::rt::Files;
use std::{fs, io};

/// How many temporaries of one name there may be at once.
const TEMP_LIMIT: u16 = 1000;

/// A temporary that is being written.
#[derive(Drop)]
struct Writing<F> {
    number: usize,
    path: String,
    file: F,
}

/// The folder `.bootsnap` in the folder in which the program runs. A link or a device is not there.
///
/// The folder is made before the first call. Where it cannot be made, nothing is found in it and no temporary can be begun. A temporary
/// of which an `append` or its `rename` failed is taken away, where that can be done.
#[derive(Drop)]
pub struct FolderShelf<'a, R: Files> {
    rt: &'a R,
    is_prepared: bool,
    faults: Faults,
    begun: usize,
    writing: Vec<Writing<R::File>>,
}

impl<'a, R: Files> FolderShelf<'a, R> {
    /// No call was made.
    pub fn new(rt: &'a R, alloc: Global) -> Self {
        FolderShelf {
            rt,
            is_prepared: false,
            faults: Faults::new(),
            begun: 0,
            writing: Vec::new(alloc),
        }
    }

    /// Makes the folder, before the first call. A failure shows in the calls that want it.
    fn prepare(&mut self)
        ensures begun { self.new.begun ≡ self.old.begun }
        ensures faults { self.new.faults ≡ self.old.faults }
    {
        if !self.is_prepared {
            let _ = fs::create_dir(self.rt, CACHE_FOLDER);
            self.is_prepared = true;
        }
    }

    /// What a call answers after the error. All but want of memory is counted.
    fn fault(&mut self, error: &io::Error) -> ShelfFault
        ensures begun { self.new.begun ≡ self.old.begun }
        ensures counted { self.old.faults ≤ self.new.faults }
        ensures failed { result ≡ ShelfFault.Failed → Rose self.old.faults self.new.faults }
    {
        if self.faults.is_memory(error) {
            ShelfFault::NoMemory
        } else {
            ShelfFault::Failed
        }
    }

    /// An empty temporary for the cache file at the path, with the next number.
    fn begin_at(&mut self, alloc: Global, path: &str) -> io::Result<Temp>
        ensures fresh { IfOk result (λ temp. (self.old.begun ≤ temp) × (temp < self.new.begun)) }
        ensures begun { self.old.begun ≤ self.new.begun }
        ensures faults { self.new.faults ≡ self.old.faults }
    {
        let number = self.begun;
        if number == usize::MAX {
            return Err(io::Error::from(ErrorKind::QuotaExceeded));
        }
        // Room comes first, so that want of memory leaves no file behind.
        self.writing.reserve(1)?;
        let (path, file) = make_temporary(self.rt, alloc, path)?;
        self.writing.push(Writing { number, path, file })?;
        self.begun += 1;
        Ok(Temp::new(number))
    }

    /// Takes the temporary out of those that are being written.
    fn take(&mut self, number: usize) -> Option<Writing<R::File>>
        ensures begun { self.new.begun ≡ self.old.begun }
        ensures faults { self.new.faults ≡ self.old.faults }
    {
        let at = self.writing.iter().position(|one| one.number == number)?;
        Some(self.writing.swap_remove(at))
    }

    /// Closes the temporary and takes it away.
    fn discard(&mut self, number: usize)
        ensures begun { self.new.begun ≡ self.old.begun }
        ensures faults { self.new.faults ≡ self.old.faults }
    {
        if let Some(Writing { path, file, .. }) = self.take(number) {
            drop(file);
            let _ = fs::remove_file(self.rt, path.as_str());
        }
    }
}

impl<R: Files> Shelf for FolderShelf<'_, R> {
    ghost tells = { false };

    ghost history = { λ _. nothing_told };

    ghost faults = { λ shelf. shelf.faults };

    ghost begun = { λ shelf. shelf.begun };

    fn load(&mut self, alloc: Global, name: &CacheName) -> Result<Option<Image>, ShelfFault> {
        self.prepare();
        match image_of(self.rt, alloc, name) {
            Ok(image) => Ok(image),
            Err(error) => Err(self.fault(&error)),
        }
    }

    fn begin(&mut self, alloc: Global, name: &CacheName) -> Result<Temp, ShelfFault> {
        self.prepare();
        let begun = match path_of(alloc, name) {
            Ok(path) => self.begin_at(alloc, path.as_str()),
            Err(error) => Err(error),
        };
        match begun {
            Ok(temp) => Ok(temp),
            Err(error) => Err(self.fault(&error)),
        }
    }

    fn append(&mut self, _alloc: Global, temp: &Temp, piece: &[u8]) -> Result<usize, ShelfFault> {
        match write_to(&mut self.writing, temp.number(), piece) {
            Ok(count) => Ok(count),
            Err(error) => {
                self.discard(temp.number());
                Err(self.fault(&error))
            }
        }
    }

    fn rename(&mut self, alloc: Global, temp: Temp, name: &CacheName) -> Result<(), ShelfFault> {
        let written = self.take(temp.number());
        match rename_to(self.rt, alloc, written, name) {
            Ok(()) => Ok(()),
            Err(error) => Err(self.fault(&error)),
        }
    }
}

/// Where the cache file lies, from the folder in which the program runs.
fn path_of(alloc: Global, name: &CacheName) -> io::Result<String> {
    let text = name_text(alloc, name)?;
    let Ok(text) = std::str::from_utf8(text.as_slice()) else {
        return Err(io::Error::from(ErrorKind::InvalidFilename));
    };
    Ok(format!(in alloc; "{CACHE_FOLDER}/{text}")?)
}

/// What a load answers. Each part of the path is looked at first, so that no link is followed; then the file is opened once, read to its
/// end and closed.
fn image_of<R: Files>(rt: &R, alloc: Global, name: &CacheName) -> io::Result<Option<Image>> {
    let path = path_of(alloc, name)?;
    match file_bytes(rt, alloc, path.as_str())? {
        Some(bytes) => Ok(Some(Image::new(bytes))),
        None => Ok(None),
    }
}

/// Makes the folder, unless it is there.
fn make_folder<R: Files>(rt: &R, path: &str) -> io::Result<()> {
    match fs::create_dir(rt, path) {
        Ok(()) => Ok(()),
        Err(error) => match entry(rt, path)? {
            Some(found) if found.is_dir() => Ok(()),
            _ => Err(error),
        },
    }
}

/// Makes each folder above the path that is not there.
fn make_folders<R: Files>(rt: &R, path: &str) -> io::Result<()> {
    for end in 1..path.len() {
        if let Some((above, rest)) = path.split_at_checked(end)
            && rest.starts_with('/')
        {
            make_folder(rt, above)?;
        }
    }
    Ok(())
}

/// A file that is new, beside the path: the first of its temporaries that can be made anew.
fn make_temporary<R: Files>(rt: &R, alloc: Global, path: &str) -> io::Result<(String, R::File)> {
    if !is_below_folders(rt, path)? {
        make_folders(rt, path)?;
    }
    for number in 0..TEMP_LIMIT {
        let temporary = format!(in alloc; "{path}.tmp.{number}")?;
        match File::create_new(rt, temporary.as_str()) {
            Ok(file) => return Ok((temporary, file)),
            Err(error) if error.kind() == ErrorKind::AlreadyExists => {}
            Err(error) => return Err(error),
        }
    }
    Err(io::Error::from(ErrorKind::AlreadyExists))
}

/// Writes the first bytes of the piece to the temporary's end, and answers how many.
fn write_to<F: Write>(writing: &mut [Writing<F>], number: usize, piece: &[u8]) -> io::Result<usize>
    ensures within { IfOk result (λ count. count ≤ length piece.now) }
    ensures some { IfOk result (λ count. 0 < length piece.now → 0 < count) }
{
    for one in writing.iter_mut() {
        if one.number == number {
            return write_some(&mut one.file, piece);
        }
    }
    Err(io::Error::from(ErrorKind::NotFound))
}

/// Closes the temporary and gives the name its file. Where that fails the file is taken away.
fn rename_to<R: Files>(
    rt: &R,
    alloc: Global,
    written: Option<Writing<R::File>>,
    name: &CacheName,
) -> io::Result<()> {
    let Some(Writing { path, file, .. }) = written else {
        return Err(io::Error::from(ErrorKind::NotFound));
    };
    drop(file);
    let renamed = match path_of(alloc, name) {
        Ok(to) => fs::rename(rt, path.as_str(), to.as_str()),
        Err(error) => Err(error),
    };
    if renamed.is_err() {
        let _ = fs::remove_file(rt, path.as_str());
    }
    renamed
}

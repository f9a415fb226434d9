//! What was found of methods.
use crate::{ClassId, MethodRow, Name};
use bs_outside::NoMemory;
use std::alloc::Global;

/// How many searches are kept.
const WAYS: usize = 2048;

/// A search that was made, and what it found.
#[derive(Clone, Copy, Drop)]
struct Search {
    class: usize,
    name: usize,
    /// The time of the search; 0 is none.
    time: u64,
    found: Option<MethodRow>,
}

/// What was found of methods since the rows and the ancestors changed last.
#[derive(Drop)]
pub struct MethodCache {
    searches: Vec<Search>,
    /// Counts the changes, from 1.
    time: u64,
}

impl MethodCache {
    /// Nothing was found yet.
    pub fn new(alloc: Global) -> Result<MethodCache, NoMemory> {
        let mut searches = Vec::with_capacity(alloc, WAYS)?;
        let none = Search {
            class: 0,
            name: 0,
            time: 0,
            found: None,
        };
        for _ in 0..WAYS {
            searches.push(none)?;
        }
        Ok(MethodCache { searches, time: 1 })
    }

    /// Where a search is kept.
    fn place(class: ClassId, name: Name) -> usize {
        (class.number % WAYS * 7 + name.number % WAYS) % WAYS
    }

    /// What an earlier search found.
    pub fn get(&self, class: ClassId, name: Name) -> Option<Option<MethodRow>> {
        let search = self.searches.get(MethodCache::place(class, name))?;
        if search.time == self.time && search.class == class.number && search.name == name.number {
            return Some(search.found);
        }
        None
    }

    /// Keeps what a search found.
    pub fn put(&mut self, class: ClassId, name: Name, found: Option<MethodRow>) {
        let time = self.time;
        if let Some(search) = self.searches.get_mut(MethodCache::place(class, name)) {
            *search = Search {
                class: class.number,
                name: name.number,
                time,
                found,
            };
        }
    }

    /// Forgets all.
    pub fn clear(&mut self) {
        match self.time.checked_add(1) {
            Some(time) => self.time = time,
            None => self.start_anew(),
        }
    }

    /// Forgets all where the times are used up.
    fn start_anew(&mut self) {
        for search in self.searches.as_mut_slice() {
            search.time = 0;
        }
        self.time = 1;
    }
}

//! Names of cache files, their temporaries, and what a load answered.
ghost use Rattle.std.specs.Prelude.{◌≡◌};
ghost use Rattle.bs_outside.specs.Cache.{same_name};

use crate::Bytes;
use std::marker::Model;

/// What a cache file holds: a compiled Ruby file, the value of a YAML or JSON file, or the scans of the load path.
#[derive(Clone, Copy, Debug, PartialEq, Eq)]
pub enum CacheKind {
    Iseq,
    Yaml,
    Json,
    LoadPath,
}

/// The name of a cache file: its kind, and the hash of the path of its source. The hash is 0 for `LoadPath`.
#[derive(Clone, Copy, Debug, PartialEq, Eq)]
pub struct CacheName {
    pub kind: CacheKind,
    pub hash: u64,
}

/// Whether two names are one.
pub fn is_same_name(a: &CacheName, b: &CacheName) -> bool
    ensures { result ≡ same_name a.now b.now }
{
    let same_kind = match (a.kind, b.kind) {
        (CacheKind::Iseq, CacheKind::Iseq)
        | (CacheKind::Yaml, CacheKind::Yaml)
        | (CacheKind::Json, CacheKind::Json)
        | (CacheKind::LoadPath, CacheKind::LoadPath) => true,
        _ => false,
    };
    same_kind && a.hash == b.hash
}

/// A temporary file of a shelf, by the number that its `begin` gave it.
#[derive(Drop, Debug)]
pub struct Temp {
    number: usize,
}

impl Model for Temp {
    ghost use Rattle.std.specs.Prelude.{ℕ};

    ghost Value = { ℕ };

    ghost view = { λ temp. temp.number };
}

impl Temp {
    /// The temporary with this number, for a shelf's `begin`.
    pub fn new(number: usize) -> Temp
        ensures { result ≡ number }
    {
        Temp { number }
    }

    /// Its number.
    pub fn number(&self) -> usize
        ensures { result ≡ self.now }
    {
        self.number
    }
}

/// What a load answered: bytes, that there are none, or that it failed.
#[derive(Drop, Debug)]
pub enum Loaded {
    Found(Bytes),
    Nothing,
    Failed,
}

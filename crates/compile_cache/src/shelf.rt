//! What a fetch asks a shelf. Its faults go no further than here.
ghost use Rattle.std.specs.Prelude.{◌≡◌, ◌≤◌, ◌∷◌, [], IsTrue, IfOk, OnOk, OnErr};
ghost use Rattle.bs_outside.specs.History.{Since};
ghost use Rattle.cache_meaning.specs.LeftOut.{PutsAllBut, PutsPart};
ghost use Rattle.compile_cache.specs.Fetching.{HasLooked};

use atomic_files::publish;
use bs_outside::{CacheName, Image, NoMemory, Shelf, ShelfFault};
use std::alloc::{AllocError, Global};

/// One load. A load that failed finds nothing, and only want of memory ends it.
pub fn look<S: Shelf>(
    alloc: Global,
    shelf: &mut S,
    name: &CacheName,
) -> Result<Option<Image>, NoMemory>
    ensures looked { IsTrue S.tells → IfOk result (HasLooked name.now (S.history shelf.old) (S.history shelf.new)) }
    ensures err { IsTrue S.tells → OnErr result (Since (S.history shelf.old) (S.history shelf.new) [] []) }
    ensures faults { S.faults shelf.old ≤ S.faults shelf.new }
{
    match shelf.load(alloc, name) {
        Ok(image) => Ok(image),
        Err(ShelfFault::Failed) => Ok(None),
        Err(ShelfFault::NoMemory) => Err(AllocError),
    }
}

/// Publishes the bytes where the shelf lets it.
pub fn put<S: Shelf>(
    alloc: Global,
    shelf: &mut S,
    name: &CacheName,
    bytes: &[u8],
) -> Result<(), NoMemory>
    ensures ok { IsTrue S.tells → OnOk result (PutsAllBut (S.history shelf.old) (S.history shelf.new) (S.faults shelf.old) (S.faults shelf.new) ((name.now, bytes.now) ∷ [])) }
    ensures err { IsTrue S.tells → OnErr result (PutsPart (S.history shelf.old) (S.history shelf.new) ((name.now, bytes.now) ∷ [])) }
    ensures faults { S.faults shelf.old ≤ S.faults shelf.new }
{
    match publish(alloc, shelf, name, bytes) {
        Ok(()) => Ok(()),
        Err(ShelfFault::Failed) => Ok(()),
        Err(ShelfFault::NoMemory) => Err(AllocError),
    }
}

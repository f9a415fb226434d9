//! A whole cache file, named at once.
#![tactic(auto)]

ghost use Rattle.std.specs.Prelude.{◌≡◌, ◌⊎◌, ◌≤◌, ◌∷◌, [], IsTrue, OnOk, OnErr};
ghost use Rattle.bs_outside.specs.History.{Since, IsLast, HasCause};
ghost use Rattle.atomic_files.specs.Moments.{EachMoment};

use bs_outside::{CacheName, Shelf, ShelfFault};
use std::alloc::Global;

/// Gives a name these bytes, all of them at one moment, however short the appends are. After an error the name was given all of them or none.
pub fn publish<S: Shelf>(
    alloc: Global,
    shelf: &mut S,
    name: &CacheName,
    bytes: &[u8],
) -> Result<(), ShelfFault>
    ensures ok { IsTrue S.tells → OnOk result (
        Since (S.history shelf.old) (S.history shelf.new) ((name.now, bytes.now) ∷ []) []
        × IsLast (name.now, bytes.now) (S.history shelf.new).past) }
    ensures err { IsTrue S.tells → OnErr result (
        Since (S.history shelf.old) (S.history shelf.new) [] []
        ⊎ (Since (S.history shelf.old) (S.history shelf.new) ((name.now, bytes.now) ∷ []) []
        × IsLast (name.now, bytes.now) (S.history shelf.new).past)) }
    ensures moments { IsTrue S.tells → EachMoment (S.history shelf.old) (S.history shelf.new) ((name.now, bytes.now) ∷ []) }
    ensures cause { HasCause (S.faults shelf.old) (S.faults shelf.new) result }
    ensures begun { S.begun shelf.old ≤ S.begun shelf.new }
{
    put_whole(alloc, shelf, name, bytes)
}

// The same without what is said of each moment, which follows from it.
fn put_whole<S: Shelf>(
    alloc: Global,
    shelf: &mut S,
    name: &CacheName,
    bytes: &[u8],
) -> Result<(), ShelfFault>
    ensures ok { IsTrue S.tells → OnOk result (
        Since (S.history shelf.old) (S.history shelf.new) ((name.now, bytes.now) ∷ []) []
        × IsLast (name.now, bytes.now) (S.history shelf.new).past) }
    ensures err { IsTrue S.tells → OnErr result (
        Since (S.history shelf.old) (S.history shelf.new) [] []
        ⊎ (Since (S.history shelf.old) (S.history shelf.new) ((name.now, bytes.now) ∷ []) []
        × IsLast (name.now, bytes.now) (S.history shelf.new).past)) }
    ensures cause { HasCause (S.faults shelf.old) (S.faults shelf.new) result }
    ensures begun { S.begun shelf.old ≤ S.begun shelf.new }
{
    let temp = shelf.begin(alloc, name)?;
    let mut rest = bytes;
    while !rest.is_empty() {
        let taken = shelf.append(alloc, &temp, rest)?;
        rest = &rest[taken..];
    }
    shelf.rename(alloc, temp, name)
}

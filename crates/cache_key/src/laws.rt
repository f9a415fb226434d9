//! What holds of keys, over the definitions alone.
ghost use Rattle.std.specs.Prelude.{◌≡◌, ◌++◌, true, ℕ, List, Option, length, take};
ghost use Rattle.bs_outside.specs.declared.trees.Stat.{Stat};
ghost use Rattle.cache_key.specs.Key.{KeyNumbers, FitsKey, ReadsBack, key_bytes, is_entry, mtime_in, digest_in};
ghost use Rattle.cache_key.specs.Event.{event_of_bytes, IsEntryOfSize};
ghost use Rattle.cache_key.specs.declared.events.Event.TheVariants as event;

/// What is read of a key is what was written, whatever follows the key.
pub fn key_reads_back()
    ensures { (version : ℕ) (numbers : KeyNumbers) (rest : List ℕ) → FitsKey numbers → ReadsBack version numbers (key_bytes version numbers ++ rest) }
{}

/// A key and as many bytes as it says have the form of an entry, and what is cut short of them has not.
pub fn entry_is_whole()
    ensures whole { (version : ℕ) (numbers : KeyNumbers) (payload : List ℕ) → FitsKey numbers → numbers.data_size ≡ length payload
        → is_entry version (key_bytes version numbers ++ payload) ≡ true }
    ensures cut { (version : ℕ) (numbers : KeyNumbers) (payload : List ℕ) (n : ℕ) → FitsKey numbers → numbers.data_size ≡ length payload
        → is_entry version (take n (key_bytes version numbers ++ payload)) ≡ true
        → take n (key_bytes version numbers ++ payload) ≡ key_bytes version numbers ++ payload }
{}

/// A hit is an entry of the file's size and time, and such an entry is a hit. What is revalidated is an entry of the file's size and of the digest that was given.
pub fn events_say()
    ensures hit { (bytes : List ℕ) (stat : Stat) (digest : Option ℕ) → event_of_bytes bytes stat digest ≡ event.Hit
        → IsEntryOfSize bytes stat.size × (mtime_in bytes ≡ stat.mtime) }
    ensures is_hit { (bytes : List ℕ) (stat : Stat) (digest : Option ℕ) → IsEntryOfSize bytes stat.size → mtime_in bytes ≡ stat.mtime
        → event_of_bytes bytes stat digest ≡ event.Hit }
    ensures revalidated { (bytes : List ℕ) (stat : Stat) (digest : Option ℕ) → event_of_bytes bytes stat digest ≡ event.Revalidated
        → IsEntryOfSize bytes stat.size × (digest ≡ Some (digest_in bytes)) }
{}

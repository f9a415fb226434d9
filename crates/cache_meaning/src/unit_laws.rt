//! Laws of units.
ghost use Rattle.std.specs.Prelude.{◌≡◌, ◌<◌, ◌^◌, Some, List, ℕ, length};
ghost use Rattle.iseq_types.specs.declared.sequences.Unit.{Unit as CompiledUnit};
ghost use Rattle.iseq_dump.specs.Dump.{Spells, HasSoundBodies, CanBeDumped};
ghost use Rattle.cache_meaning.specs.SmallUnit.{unit_of};
ghost use Rattle.cache_meaning.specs.Payload.{dump_of};

/// The unit of a small file has sound bodies and can be dumped, and a dump of fewer than 2^64 bytes is its spelling.
pub fn small_units_are_sound()
    ensures dumped { (path text : List ℕ) (u : CompiledUnit) → unit_of path text ≡ Some u → CanBeDumped u }
    ensures spelled { (path text : List ℕ) (u : CompiledUnit) → unit_of path text ≡ Some u → length (dump_of u) < 2 ^ 64 → Spells u (dump_of u) }
    ensures sound { (path text : List ℕ) (u : CompiledUnit) → unit_of path text ≡ Some u → HasSoundBodies u }
{}

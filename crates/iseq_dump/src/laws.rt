//! Laws of the spelling of units.
ghost use Rattle.std.specs.Prelude.{◌≡◌, ◌^◌, ◌<◌, ℕ, List, [], ◌++◌, Some, length, slice_get};
ghost use Rattle.iseq_types.specs.Index.{AreIndexRows};
ghost use Rattle.iseq_types.specs.declared.sequences.Sequence.{Sequence};
ghost use Rattle.iseq_types.specs.declared.sequences.Unit.{Unit as CompiledUnit};
ghost use Rattle.iseq_dump.specs.declared.head.Entry.{Entry};
ghost use Rattle.iseq_dump.specs.declared.head.Head.{Head};
ghost use Rattle.iseq_dump.specs.Dump.{CanBeDumped, HasBody, HasSoundBodies, IsHead, IsLeb128, Spells, end_of, head_bytes, head_of, number_bytes, rows_of, unit_of};

/// A unit has one spelling, bytes spell one unit, and no spelling is a proper prefix of another.
pub fn one_spelling()
    ensures bytes { (u : CompiledUnit) (a b : List ℕ) → Spells u a → Spells u b → a ≡ b }
    ensures unit { (u v : CompiledUnit) (a : List ℕ) → Spells u a → Spells v a → u ≡ v }
    ensures prefix { (u v : CompiledUnit) (a rest : List ℕ) → Spells u a → Spells v (a ++ rest) → rest ≡ [] }
{}

/// A number of at most 64 bits is spelled as LEB128 in its shortest form, and has no other such form.
pub fn numbers_are_leb128()
    ensures spelled { (n : ℕ) → n < 2 ^ 64 → IsLeb128 (number_bytes n) n }
    ensures only { (n : ℕ) (bytes : List ℕ) → n < 2 ^ 64 → IsLeb128 bytes n → bytes ≡ number_bytes n }
{}

/// A dump is the header of its unit and the bodies, each of which stands where the index says; and
/// bytes that are a header with the bodies of its index behind it, to the end, are a dump.
pub fn dumps_have_parts()
    ensures head { (u : CompiledUnit) (bytes : List ℕ) → Spells u bytes → IsHead (head_of u) × ((rest : List ℕ) × (bytes ≡ head_bytes (head_of u) ++ rest)) }
    ensures one_head { (u : CompiledUnit) (head : Head) (bytes rest : List ℕ) → Spells u bytes → IsHead head → bytes ≡ head_bytes head ++ rest → head ≡ head_of u }
    ensures rows { (u : CompiledUnit) (bytes : List ℕ) → Spells u bytes → (rows_of (head_of u).entries ≡ u.rows) × (length (head_of u).entries ≡ length u.bodies) }
    ensures body { (u : CompiledUnit) (bytes : List ℕ) (id : ℕ) (entry : Entry) (body : Sequence) → Spells u bytes → slice_get (head_of u).entries id ≡ Some entry → slice_get u.bodies id ≡ Some body → HasBody bytes entry body }
    ensures whole { (head : Head) (bodies : List Sequence) (bytes rest : List ℕ) → IsHead head → bytes ≡ head_bytes head ++ rest → length bytes ≡ end_of (length (head_bytes head)) head.entries → length bodies ≡ length head.entries → ((id : ℕ) (entry : Entry) (body : Sequence) → slice_get head.entries id ≡ Some entry → slice_get bodies id ≡ Some body → HasBody bytes entry body) → Spells (unit_of head bodies) bytes }
{}

/// A unit with sound bodies, one for each row of a right index, can be dumped; and so can one that has
/// a dump.
pub fn units_can_be_dumped()
    ensures sound { (u : CompiledUnit) → AreIndexRows u.rows → length u.bodies ≡ length u.rows → HasSoundBodies u → CanBeDumped u }
    ensures again { (u : CompiledUnit) (bytes : List ℕ) → Spells u bytes → CanBeDumped u }
{}

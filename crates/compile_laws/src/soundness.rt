//! Each sequence of a text's program is sound, so that its unit can be dumped.
ghost use Rattle.std.specs.Prelude.{◌≡◌, ℕ, Some, map, slice_get};
ghost use Rattle.ruby_lexer.specs.Bytes.{Bytes as Source};
ghost use Rattle.ruby_tree.specs.Names.{Bytes};
ghost use Rattle.ruby_tree.specs.Tree.{Tree};
ghost use Rattle.ruby_tree.specs.Reading.{Reads};
ghost use Rattle.iseq_types.specs.Index.{AreIndexRows};
ghost use Rattle.iseq_types.specs.Sound.{IsSound};
ghost use Rattle.iseq_dump.specs.Dump.{CanBeDumped, HasSoundBodies};
ghost use Rattle.compile_table.specs.Sequences.{Compiled, index_row, sequences_of, unit_of};

/// Each sequence of a text's program is sound under the rows of the program's sequences, which are
/// such as an index has: its instructions find on the stack what they take, in whichever way the
/// sequence runs, its rows keep their depths, and all that it names is there.
pub fn compiled_bodies_are_sound()
    ensures rows { (path : Bytes) (source : Source) (t : Tree) → Reads source t → AreIndexRows (map index_row (sequences_of path t)) }
    ensures sound { (path : Bytes) (source : Source) (t : Tree) (n : ℕ) (c : Compiled) → Reads source t → slice_get (sequences_of path t) n ≡ Some c → IsSound c.body (map index_row (sequences_of path t)) n }
{}

/// So the bodies of a text's unit are sound under its own index, and the unit can be dumped.
pub fn compiled_units_can_be_dumped()
    ensures sound { (path : Bytes) (source : Source) (t : Tree) → Reads source t → HasSoundBodies (unit_of path t) }
    ensures dumped { (path : Bytes) (source : Source) (t : Tree) → Reads source t → CanBeDumped (unit_of path t) }
{}

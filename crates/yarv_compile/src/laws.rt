//! Laws of the sequences that stand directly in a tree, by which the compiler finds all of them.
//! Each is proved once, and its function does nothing.
ghost use Rattle.std.specs.Prelude.{◌≡◌, ◌+◌, List, ◌∷◌, length, nat_eq, All, IsPermutation};
ghost use Rattle.std.specs.List.{IsDistinct};
ghost use Rattle.std.specs.List.Sorted.{IsStrictlyIncreasing};
ghost use Rattle.ruby_lexer.specs.Bytes.{Bytes as Source};
ghost use Rattle.ruby_tree.specs.Names.{Bytes};
ghost use Rattle.ruby_tree.specs.Tree.{Tree};
ghost use Rattle.ruby_tree.specs.Reading.{Reads};
ghost use Rattle.ruby_meaning.specs.Sequences.{places, sequence_number};
ghost use Rattle.compile_table.specs.Shapes.{Where};
ghost use Rattle.compile_table.specs.Sequences.{Compiled, in_file, sequences, by_places, sequences_of, sequence_at};
ghost use Rattle.code_emitter.specs.Children.{Child, direct};
ghost use Rattle.yarv_compile.specs.Children.{inner_of, compiled_child, under, all_under, places_in};

/// The sequences of a tree are those that stand directly in it and those within these, in another
/// order. So is a child with all within it the child and those that stand directly in its tree,
/// each with all within it.
pub fn children_are_sequences()
    ensures sequences { (l : Where) (t : Tree) → IsPermutation (all_under l (direct l.loop t)) (sequences l t) }
    ensures child { (l : Where) (c : Child) → IsPermutation (compiled_child l c ∷ all_under (inner_of l c) (direct (inner_of l c).loop c.tree)) (under l c) }
{}

/// Sequences of distinct places have one order by their places, whatever the order in which they
/// are found. A list of them whose places rise has that order.
pub fn sequences_have_one_order()
    ensures same { (cs ds : List Compiled) → IsPermutation cs ds → IsDistinct nat_eq (places_in ds) → by_places cs ≡ by_places ds }
    ensures rising { (cs ds : List Compiled) → IsPermutation cs ds → IsDistinct nat_eq (places_in ds) → IsStrictlyIncreasing (places_in cs) → cs ≡ by_places ds }
{}

/// The sequences that stand in a text's file have the places of its tree, which are distinct. Each
/// stands in the program where its number says, and with the file's own they are all.
pub fn sequences_stand_by_their_numbers()
    ensures places { (path : Bytes) (source : Source) (t : Tree) → Reads source t → places_in (sequences (in_file path t) t) ≡ places t }
    ensures apart { (path : Bytes) (source : Source) (t : Tree) → Reads source t → IsDistinct nat_eq (places_in (sequences (in_file path t) t)) }
    ensures numbered { (path : Bytes) (source : Source) (t : Tree) → Reads source t → All (λ c. sequence_at path t (sequence_number (places t) c.place) ≡ c) (sequences (in_file path t) t) }
    ensures counted { (path : Bytes) (t : Tree) → length (sequences_of path t) ≡ length (sequences (in_file path t) t) + 1 }
{}

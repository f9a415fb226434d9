//! Where a tree has the same code, and where its body begins in it.
ghost use Rattle.std.specs.Prelude.{◌≡◌, ℕ, ◌+◌, ◌-◌, ◌++◌, Bool, List, map};
ghost use Rattle.ruby_tree.specs.Names.{Bytes};
ghost use Rattle.ruby_tree.specs.Tree.{SourcePosition, Tree, Form, body, Params, at};
ghost use Rattle.iseq_types.specs.declared.sequences.SeqKind.{SeqKind};
ghost use Rattle.code_meaning.specs.Code.{done, size};
ghost use Rattle.compile_table.specs.Shapes.{Where, looped, in_rescue, in_ensure, shape, form_shape, params_shape};
ghost use Rattle.compile_table.specs.Sequences.{in_body, in_block, entries_from, entries_of, body_sequence, part_sequence};
ghost use Rattle.yarv_compile.specs.Alike.{Alike};
ghost use Rattle.emit_bodies.specs.Entries.{starts};

/// A tree has the same code in places that are alike, a body begins at the same instructions there,
/// and the sequence of a body or of a part is the same.
pub fn code_is_alike()
    ensures shapes { (l m : Where) → Alike l m → (t : Tree) → shape l t ≡ shape m t }
    ensures forms { (l m : Where) → Alike l m → (f : Form) (s : SourcePosition) → form_shape l f s ≡ form_shape m f s }
    ensures entries { (l m : Where) → Alike l m → (p : ℕ) (ps : Params) → entries_from l p ps ≡ entries_from m p ps }
    ensures all_entries { (l m : Where) → Alike l m → (ps : Params) → entries_of l ps ≡ entries_of m ps }
    ensures bodies { (l m : Where) → Alike l m → (x : Bytes) (t : Tree) → body_sequence l x t ≡ body_sequence m x t }
    ensures parts { (l m : Where) → Alike l m → (kind : SeqKind) (t : Tree) → part_sequence l kind t ≡ part_sequence m kind t }
{}

/// A place is alike to the same one in another sequence or in the clauses of a rescue part, and to
/// the one for which the places of the sequences stand in another order. What stands in a loop, a
/// body, a block, a rescue part or an ensure part of places that are alike stands alike.
pub fn places_are_alike()
    ensures sequences { (l : Where) (c : Bool) (n : ℕ) → Alike (record l { clause = c; number = n }) l }
    ensures orders { (l : Where) (xs ys : List ℕ) → Alike (record l { places = xs ++ ys }) (record l { places = ys ++ xs }) }
    ensures loops { (l m : Where) → Alike l m → Alike (looped l) (looped m) }
    ensures bodies { (l m : Where) → Alike l m → (t : Tree) → Alike (in_body l t) (in_body m t) }
    ensures blocks { (l m : Where) → Alike l m → (t : Tree) → Alike (in_block l t) (in_block m t) }
    ensures rescues { (l m : Where) → Alike l m → (t : Tree) → Alike (in_rescue l t) (in_rescue m t) }
    ensures ends { (l m : Where) → Alike l m → (t : Tree) → Alike (in_ensure l t) (in_ensure m t) }
{}

/// A body begins as many instructions before the end of its code as stand behind that place, in the
/// code of its parameters and in the whole.
pub fn entries_are_told_from_the_end()
    ensures entries { (l : Where) (n total p : ℕ) (ps : Params) → p + (size (params_shape l ps done) + n) ≡ total → map (λ q. total - q) (starts l n ps) ≡ entries_from l p ps }
    ensures whole { (l : Where) (s : SourcePosition) (ps : Params) (t : Tree) → map (λ q. size (shape l (at s (body ps t))) - q) (starts l (size (shape l t) + 1) ps) ≡ entries_from l 0 ps }
{}

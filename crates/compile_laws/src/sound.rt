//! What is compiled is sound.
ghost use Rattle.std.specs.Prelude.{◌≡◌, ◌<◌, ◌≤◌, ℕ, All, true, [], ◌∷◌};
ghost use Rattle.ruby_lexer.specs.Bytes.{Bytes as Source};
ghost use Rattle.ruby_tree.specs.Names.{Bytes};
ghost use Rattle.ruby_tree.specs.Tree.{Tree};
ghost use Rattle.ruby_tree.specs.Reading.{Reads};
ghost use Rattle.iseq_types.specs.Index.{AreIndexRows};
ghost use Rattle.iseq_types.specs.Sound.{IsOrdered};
ghost use Rattle.code_meaning.specs.Code.{finish, rows_of};
ghost use Rattle.compile_table.specs.Order.{are_in_order};
ghost use Rattle.compile_table.specs.Shapes.{Where, shape};
ghost use Rattle.compile_table.specs.Sequences.{in_file, sequences, sequences_of, unit_of};
ghost use Rattle.compile_table.specs.Worked.{at_place, nested_form};
ghost use Rattle.compile_laws.specs.Rising.{Rises};

/// The rows of a body are in order: by their ends, then the inner ones first, then by the numbers
/// of their sequences, a break row before a next row and both last. It holds where the clauses of
/// nested rescue and ensure parts are numbered from the inside, as in a worked row of the table.
pub fn rows_are_in_order()
    ensures witness { Rises (10 ∷ 20 ∷ 30 ∷ []) (at_place 0 nested_form) }
    ensures order { (l : Where) (t : Tree) (h p : ℕ) → Rises l.places t → are_in_order (rows_of h p (shape l t)) ≡ true }
{}

/// The rows of a body have ranges that are not empty, go on at their ends or later, and lie inside
/// its code.
pub fn rows_lie_inside()
    ensures ordered { (l : Where) (t : Tree) (h p : ℕ) → Rises l.places t → All IsOrdered (rows_of h p (shape l t)) }
    ensures inside { (l : Where) (t : Tree) (h p : ℕ) → Rises l.places t → All (λ row. (p ≤ row.from) × (row.to ≤ finish p (shape l t))) (rows_of h p (shape l t)) }
{}

/// In each sequence of a text's program the clauses of nested rescue and ensure parts are numbered
/// from the inside. So its rows are in order, their ranges are not empty, they go on at their ends
/// or later, and they lie inside its code.
pub fn texts_rise()
    ensures rise { (path : Bytes) (source : Source) (t : Tree) → Reads source t → All (λ c. Rises c.inner.places c.tree) (sequences_of path t) }
    ensures order { (path : Bytes) (source : Source) (t : Tree) → Reads source t → All (λ c. are_in_order c.body.rows ≡ true) (sequences_of path t) }
    ensures ordered { (path : Bytes) (source : Source) (t : Tree) → Reads source t → All (λ c. All IsOrdered c.body.rows) (sequences_of path t) }
    ensures inside { (path : Bytes) (source : Source) (t : Tree) → Reads source t → All (λ c. All (λ row. row.to ≤ finish 0 (shape c.inner c.tree)) c.body.rows) (sequences_of path t) }
{}

/// The number of each sequence that stands in a text's file is greater than that of the sequence
/// around it. So the rows of the unit's index are right: the file's own is the first, and each other
/// one names a parent before it.
pub fn parents_come_first()
    ensures first { (path : Bytes) (source : Source) (t : Tree) → Reads source t → All (λ c. c.parent < c.inner.number) (sequences (in_file path t) t) }
    ensures index { (path : Bytes) (source : Source) (t : Tree) → Reads source t → AreIndexRows (unit_of path t).rows }
{}

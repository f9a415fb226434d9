//! That the tables of a program have all that its bodies find by numbers, so that each runs as what
//! it means.
ghost use Rattle.std.specs.Prelude.{◌≡◌, ◌<◌, ℕ, false, List, [], Option, Some, length, slice_get, All};
ghost use Rattle.ruby_lexer.specs.Bytes.{Bytes as Source};
ghost use Rattle.ruby_tree.specs.Names.{Bytes};
ghost use Rattle.ruby_tree.specs.Tree.{Tree};
ghost use Rattle.ruby_tree.specs.Reading.{Reads};
ghost use Rattle.iseq_types.specs.declared.sequences.SeqKind.TheVariants as kinds;
ghost use Rattle.ruby_meaning.specs.Locals.{first_line_of};
ghost use Rattle.ruby_meaning.specs.Sequences.{places};
ghost use Rattle.ruby_meaning.specs.Value.{Code};
ghost use Rattle.ruby_meaning.specs.Levels.{names_seen};
ghost use Rattle.ruby_meaning.specs.World.{World, Frame, Outcome};
ghost use Rattle.ruby_meaning.specs.Loads.{file_body};
ghost use Rattle.ruby_meaning.specs.Files.{Files};
ghost use Rattle.ruby_meaning.specs.Evaluation.{evaluate};
ghost use Rattle.ruby_meaning.specs.InSight.{InSight};
ghost use Rattle.code_meaning.specs.Machine.{Runs};
ghost use Rattle.code_meaning.specs.Frames.{running, returning, Turns};
ghost use Rattle.compile_table.specs.Sequences.{in_file, Compiled, sequences_of, index_row, unit_of, sequence_at, routines, bodies};
ghost use Rattle.compile_laws.specs.Finds.{Stands, start_of};
ghost use Rattle.compile_laws.specs.Begins.{Begins, IsCodeAt};
ghost use Rattle.compile_laws.specs.WorkedText.{worked_text, worked_tree, worked_sequences, worked_finds};
ghost use Rattle.compile_laws.specs.Found.{IsBodyKind, IsOfProgram, tables, entry_frame, entry_world, IsCodeOf};

/// Of a text's tree, each sequence of the program stands in the tables under its number, and the
/// tables have all that it finds there if it is a body.
pub fn texts_find_their_bodies()
    ensures each { (path : Bytes) (source : Source) (t : Tree) → Reads source t → All (IsOfProgram path t) (sequences_of path t) }
    ensures number { (path : Bytes) (source : Source) (t : Tree) (n : ℕ) → Reads source t → n < length (sequences_of path t) → (sequence_at path t n).inner.number ≡ n }
{}

/// The unit of a tree has the bodies and the rows of the sequences that the tables have.
pub fn units_have_their_sequences()
    ensures bodies { (path : Bytes) (t : Tree) (n : ℕ) → n < length (sequences_of path t) → slice_get (unit_of path t).bodies n ≡ Some (routines path t n).body }
    ensures rows { (path : Bytes) (t : Tree) (n : ℕ) → n < length (sequences_of path t) → slice_get (unit_of path t).rows n ≡ Some (index_row (sequence_at path t n)) }
    ensures lengths { (path : Bytes) (t : Tree) → (length (unit_of path t).bodies ≡ length (sequences_of path t)) × (length (unit_of path t).rows ≡ length (sequences_of path t)) }
{}

/// A body of a program begins in each frame that runs it in its file and is in its sight: it sees
/// what is seen there, and its environments have the names in sight. The code of a method and of a
/// block of a program stands in its tables: that of a method sees no locals around it, and that of a
/// block what is in sight in the sequence around it.
pub fn bodies_of_programs_begin()
    ensures begins { (path : Bytes) (t : Tree) (c : Compiled) (frame : Frame) (w : World) → IsOfProgram path t c → IsBodyKind c.kind → Stands (first_line_of c.tree) path (places t) c.tree frame → InSight c.inner.sight frame w → frame.in_loop ≡ false → Begins (tables path t) c.inner c.tree frame w }
    ensures method { (path : Bytes) (t : Tree) (c : Compiled) (code : Code) → IsOfProgram path t c → c.kind ≡ kinds.Method → IsCodeOf path (places t) [] c.tree code → IsCodeAt (tables path t) c.inner [] code }
    ensures block { (path : Bytes) (t : Tree) (c : Compiled) (code : Code) → IsOfProgram path t c → c.kind ≡ kinds.Block → IsCodeOf path (places t) (names_seen (sequence_at path t c.parent).inner.sight c.tree) c.tree code → IsCodeAt (tables path t) c.inner (sequence_at path t c.parent).inner.sight.scopes code }
{}

/// A body of a program, run from its entry for the optional parameters that were given, comes to
/// what it means where it begins. A machine that begins so, and comes to an outcome, comes to the
/// same.
pub fn bodies_of_programs_run()
    ensures runs { (files : Files) (path : Bytes) (t : Tree) (c : Compiled) (frame : Frame) (w : World) → IsOfProgram path t c → IsBodyKind c.kind → Begins (tables path t) c.inner c.tree frame w → Runs files (evaluate files) (routines path t) (bodies path t) (routines path t c.inner.number) frame (start_of c.inner c.tree frame.given) [] w (evaluate files c.tree frame w) }
    ensures machine { (files : Files) (path : Bytes) (t : Tree) (c : Compiled) (frame : Frame) (w : World) (o : Outcome) → IsOfProgram path t c → IsBodyKind c.kind → Begins (tables path t) c.inner c.tree frame w → Turns files (evaluate files) (running (tables path t) (routines path t c.inner.number) frame (start_of c.inner c.tree frame.given) [] w []) (returning o []) → o ≡ evaluate files c.tree frame w }
{}

/// The file of a text's tree, run from the beginning of its sequence in the frame and the
/// environment that a load gives it, comes to what it means; and so does a machine that begins so.
pub fn files_of_texts_run()
    ensures begins { (path : Bytes) (load : Option ℕ) (source : Source) (t : Tree) (outside : Option (Bytes × ℕ)) (inside calling : List ℕ) (w : World) → Reads source t → Begins (tables path t) (in_file path t) (file_body t) (entry_frame path load t outside inside calling w) (entry_world t w) }
    ensures runs { (files : Files) (path : Bytes) (load : Option ℕ) (source : Source) (t : Tree) (outside : Option (Bytes × ℕ)) (inside calling : List ℕ) (w : World) → Reads source t → Runs files (evaluate files) (routines path t) (bodies path t) (routines path t 0) (entry_frame path load t outside inside calling w) 0 [] (entry_world t w) (evaluate files (file_body t) (entry_frame path load t outside inside calling w) (entry_world t w)) }
    ensures machine { (files : Files) (path : Bytes) (load : Option ℕ) (source : Source) (t : Tree) (outside : Option (Bytes × ℕ)) (inside calling : List ℕ) (w : World) (o : Outcome) → Reads source t → Turns files (evaluate files) (running (tables path t) (routines path t 0) (entry_frame path load t outside inside calling w) 0 [] (entry_world t w) []) (returning o []) → o ≡ evaluate files (file_body t) (entry_frame path load t outside inside calling w) (entry_world t w) }
{}

/// A small text with a block and a rescue part: it is read, its program has their sequences, and the
/// tables have all that the file's body has. So the premises of what stands above are met.
pub fn a_worked_text_is_found()
    ensures read { Reads worked_text worked_tree }
    ensures sequences { worked_sequences }
    ensures finds { worked_finds }
{}

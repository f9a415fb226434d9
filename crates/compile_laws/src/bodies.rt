//! That the code of a body does what the body means.
ghost use Rattle.std.specs.Prelude.{◌≡◌, ℕ, false, []};
ghost use Rattle.ruby_tree.specs.Names.{Bytes};
ghost use Rattle.ruby_tree.specs.Tree.{Tree};
ghost use Rattle.iseq_types.specs.declared.sequences.SeqKind.{SeqKind};
ghost use Rattle.ruby_meaning.specs.World.{World, Frame, Outcome};
ghost use Rattle.ruby_meaning.specs.Files.{Files};
ghost use Rattle.ruby_meaning.specs.Evaluation.{evaluate};
ghost use Rattle.code_meaning.specs.Code.{Routine};
ghost use Rattle.ruby_meaning.specs.InSight.{HasScopes};
ghost use Rattle.code_meaning.specs.Machine.{Runs};
ghost use Rattle.code_meaning.specs.Frames.{Tables, running, returning, Turns};
ghost use Rattle.compile_table.specs.Shapes.{Where};
ghost use Rattle.compile_laws.specs.Finds.{body_routine, FindsBody, StandsIn, start_of};

/// The sequence of a body, run from its entry for the optional parameters that were given, comes to
/// what the body means: where its parts are found by their numbers, and the frame runs this code in
/// environments that have the names in sight. A machine that begins so, and comes to an outcome,
/// comes to the same.
pub fn body_runs()
    ensures runs { (files : Files) (seqs : ℕ → Routine) (bodies : ℕ → Tree) (t : Tree) (l : Where) (kind : SeqKind) (name : Bytes) (frame : Frame) (w : World) → l.loop ≡ false → l.clause ≡ false → StandsIn l frame → HasScopes l.sight.scopes frame w → FindsBody seqs bodies l t → frame.in_loop ≡ false → Runs files (evaluate files) seqs bodies (body_routine l kind name t) frame (start_of l t frame.given) [] w (evaluate files t frame w) }
    ensures machine { (files : Files) (unit : Tables) (t : Tree) (l : Where) (kind : SeqKind) (name : Bytes) (frame : Frame) (w : World) (o : Outcome) → l.loop ≡ false → l.clause ≡ false → StandsIn l frame → HasScopes l.sight.scopes frame w → FindsBody unit.seqs unit.bodies l t → frame.in_loop ≡ false → Turns files (evaluate files) (running unit (body_routine l kind name t) frame (start_of l t frame.given) [] w []) (returning o []) → o ≡ evaluate files t frame w }
{}

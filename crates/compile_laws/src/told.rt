//! That each code of a method or a block in a world that a run reaches is one of the unit of its
//! file.
ghost use Rattle.std.specs.Prelude.{◌≡◌, ℕ, List, [], Option, Some, None, length, slice_get};
ghost use Rattle.bs_outside.specs.SourceTree.{SourceTree, bytes_at};
ghost use Rattle.ruby_tree.specs.Names.{Bytes};
ghost use Rattle.ruby_tree.specs.Tree.{SourcePosition, Tree, at, class, module_named, Other};
ghost use Rattle.ruby_tree.specs.Placement.{Around};
ghost use Rattle.ruby_meaning.specs.Value.{Value, Code, written};
ghost use Rattle.ruby_meaning.specs.Store.{Place, Found, find_in};
ghost use Rattle.ruby_meaning.specs.World.{Given, Closure, World, Frame, Run, world_of};
ghost use Rattle.ruby_meaning.specs.Files.{Files};
ghost use Rattle.ruby_meaning.specs.FilesOf.{DataReader, IsRubyFile, files_of};
ghost use Rattle.ruby_meaning.specs.PlainRun.{Program, IsPrelude, prelude_of_text, program_run, start_world};
ghost use Rattle.ruby_meaning.specs.Evaluation.{run, evaluate};
ghost use Rattle.ruby_meaning.specs.Levels.{Scopes, Sight, file_sight, IsHoused};
ghost use Rattle.ruby_meaning.specs.InSight.{HaveNames};
ghost use Rattle.ruby_meaning.specs.Stored.{IsStored};
ghost use Rattle.ruby_meaning.specs.Housed.{source_of, WorldHoused, InPlace, StaysHoused, AreHoused};
ghost use Rattle.code_meaning.specs.Frames.{Tables};
ghost use Rattle.compile_table.specs.Shapes.{Where};
ghost use Rattle.compile_laws.specs.Calling.{class_world, opened_frame, called_frame, method_world, yielded_frame, block_world};
ghost use Rattle.compile_laws.specs.Begins.{Begins, IsCodeAt};
ghost use Rattle.compile_table.specs.Sequences.{routine_of};
ghost use Rattle.compile_laws.specs.Found.{tables};
ghost use Rattle.compile_laws.specs.Told.{told_by, HasSequence, IsOfItsFile, BeginsInItsFile};

/// In what the files of a source tree and the prelude are read as, each body is one of the program of
/// its file. Each step of a plain run whose bodies keep this keeps it, so does the evaluation, and
/// the world in which a plain run ends has only codes that are such.
pub fn runs_keep_codes_of_files()
    ensures read { (source : SourceTree) (files : Files) (prelude : Tree) → ((path : Bytes) → IsRubyFile (bytes_at source path) (files.ruby path)) → IsPrelude prelude → AreHoused (told_by files prelude) files }
    ensures prelude { (source : SourceTree) (files : Files) (prelude : Tree) → ((path : Bytes) → IsRubyFile (bytes_at source path) (files.ruby path)) → IsPrelude prelude → IsHoused (told_by files prelude (source_of [] None prelude)) (file_sight prelude) prelude }
    ensures step { (reader : DataReader) (source : SourceTree) (fuel : ℕ) (b : Tree → Frame → Run) → StaysHoused (told_by (files_of reader source) prelude_of_text) b → StaysHoused (told_by (files_of reader source) prelude_of_text) (run (files_of reader source) fuel b) }
    ensures stays { (reader : DataReader) (source : SourceTree) → StaysHoused (told_by (files_of reader source) prelude_of_text) (evaluate (files_of reader source)) }
    ensures plain { (reader : DataReader) (source : SourceTree) (p : Program) → WorldHoused (told_by (files_of reader source) prelude_of_text) (world_of (program_run (files_of reader source) prelude_of_text p (start_world p))) }
{}

/// Each method that is found in such a world and written in Ruby has a code of the unit of its file,
/// and so has each block, where the environments outward of the one in which it was made have the
/// names in sight around it. So what `made_frames_begin` asks of a method's and of a block's code
/// holds in each world that a plain run reaches. By the number of a code's sequence the tables of
/// its file have the routine of the sequence, and the code's body.
pub fn codes_of_runs_are_found()
    ensures method { (source : SourceTree) (files : Files) (prelude : Tree) → ((path : Bytes) → IsRubyFile (bytes_at source path) (files.ruby path)) → IsPrelude prelude → (w : World) → IsStored w → WorldHoused (told_by files prelude) w → (x : Bytes) (ps : List Place) (f : Found) (code : Code) → find_in w.objects x ps ≡ Some f → f.body ≡ written code → IsOfItsFile files prelude [] code }
    ensures block { (source : SourceTree) (files : Files) (prelude : Tree) → ((path : Bytes) → IsRubyFile (bytes_at source path) (files.ruby path)) → IsPrelude prelude → (w : World) → IsStored w → WorldHoused (told_by files prelude) w → (i : ℕ) (d : Closure) → slice_get w.closures i ≡ Some d → (scopes : Scopes) × IsOfItsFile files prelude scopes d.code × HaveNames (length w.environments) scopes w.environments (Some d.environment) }
    ensures sequence { (files : Files) (prelude : Tree) (code : Code) → (of : HasSequence files prelude code) → ((tables code.source.path of.tree).seqs of.sequence.inner.number ≡ routine_of of.sequence) × ((tables code.source.path of.tree).bodies of.sequence.inner.number ≡ code.body) }
{}

/// So the frame of a call of a method that is found there begins where its code stands in the unit of
/// its file, and so does the frame of a call of a block. Nothing else is asked of the code.
pub fn frames_of_runs_begin()
    ensures method { (source : SourceTree) (files : Files) (prelude : Tree) → ((path : Bytes) → IsRubyFile (bytes_at source path) (files.ruby path)) → IsPrelude prelude → (w : World) → IsStored w → WorldHoused (told_by files prelude) w → (x : Bytes) (ps : List Place) (f : Found) (code : Code) → find_in w.objects x ps ≡ Some f → f.body ≡ written code → (frame : Frame) (line : ℕ) (self : Value) (name : Bytes) (place : Place) (vs : List Value) (given : Given) (turns : ℕ) → BeginsInItsFile files prelude code (called_frame frame line code self name place vs given turns w) (method_world code vs given turns w) }
    ensures block { (source : SourceTree) (files : Files) (prelude : Tree) → ((path : Bytes) → IsRubyFile (bytes_at source path) (files.ruby path)) → IsPrelude prelude → (w : World) → IsStored w → WorldHoused (told_by files prelude) w → (i : ℕ) (d : Closure) → slice_get w.closures i ≡ Some d → (frame : Frame) (line k : ℕ) (vs : List Value) (turns : ℕ) → BeginsInItsFile files prelude d.code (yielded_frame frame line d k vs turns w) (block_world d vs turns w) }
{}

/// So has the body that a class or a module opens where it is in place, and its frame begins where
/// its code stands.
pub fn class_bodies_of_runs_are_found()
    ensures opened_class { (source : SourceTree) (files : Files) (prelude : Tree) → ((path : Bytes) → IsRubyFile (bytes_at source path) (files.ruby path)) → IsPrelude prelude → (c : Around) (s : Sight) (o : SourcePosition) (v : Other) (x : Bytes) (a : Tree) (frame : Frame) (w : World) → InPlace (told_by files prelude) c s (at o (class v x a)) frame w → (line k : ℕ) (z : World) → IsOfItsFile files prelude [] (opened_frame frame line a k z).code }
    ensures opened_module { (source : SourceTree) (files : Files) (prelude : Tree) → ((path : Bytes) → IsRubyFile (bytes_at source path) (files.ruby path)) → IsPrelude prelude → (c : Around) (s : Sight) (o : SourcePosition) (x : Bytes) (a : Tree) (frame : Frame) (w : World) → InPlace (told_by files prelude) c s (at o (module_named x a)) frame w → (line k : ℕ) (z : World) → IsOfItsFile files prelude [] (opened_frame frame line a k z).code }
    ensures begins { (unit : Tables) (l : Where) (frame : Frame) (line : ℕ) (t : Tree) (c : ℕ) (w : World) → IsCodeAt unit l [] (opened_frame frame line t c w).code → Begins unit l t (opened_frame frame line t c w) (class_world frame t w) }
{}

//! What holds of each plain run, whose files are texts.
ghost use Rattle.std.specs.Prelude.{◌≡◌, ℕ, List, [], Option, None};
ghost use Rattle.bs_outside.specs.SourceTree.{SourceTree, bytes_at};
ghost use Rattle.ruby_tree.specs.Names.{Bytes};
ghost use Rattle.ruby_tree.specs.Tree.{Tree};
ghost use Rattle.ruby_tree.specs.Placement.{at_home, file};
ghost use Rattle.ruby_meaning.specs.Locals.{locals_of};
ghost use Rattle.ruby_meaning.specs.World.{World, Frame, Run, world_of};
ghost use Rattle.ruby_meaning.specs.Steps.{stand};
ghost use Rattle.ruby_meaning.specs.Calls.{all_nil, with_environment, next_environment};
ghost use Rattle.ruby_meaning.specs.Files.{Files, ruby_tree};
ghost use Rattle.ruby_meaning.specs.FilesOf.{DataReader, IsRubyFile, files_of};
ghost use Rattle.ruby_meaning.specs.Loads.{file_body, file_code, file_frame};
ghost use Rattle.ruby_meaning.specs.PlainRun.{Program, IsPrelude, prelude_of_text, program_run, top_frame, start_world};
ghost use Rattle.ruby_meaning.specs.Evaluation.{run, evaluate};
ghost use Rattle.ruby_meaning.specs.Levels.{file_sight, untold, IsHoused};
ghost use Rattle.ruby_meaning.specs.Stored.{IsStored};
ghost use Rattle.ruby_meaning.specs.Housed.{WorldHoused, InPlace, StaysHoused, AreHoused};

/// In what the files of a source tree and the prelude are read as, each local is held. So each tree
/// that a plain run evaluates is in place, in a frame that fits and is in its sight, and the code
/// and the blocks that stand when it ends are such. The prelude and each file begin in place.
pub fn plain_runs_stand()
    ensures read { (source : SourceTree) (files : Files) → ((path : Bytes) → IsRubyFile (bytes_at source path) (files.ruby path)) → AreHoused untold files }
    ensures prelude { (t : Tree) → IsPrelude t → IsHoused None (file_sight t) t }
    ensures step { (reader : DataReader) (source : SourceTree) (fuel : ℕ) (b : Tree → Frame → Run) → StaysHoused untold b → StaysHoused untold (run (files_of reader source) fuel b) }
    ensures stays { (reader : DataReader) (source : SourceTree) → StaysHoused untold (evaluate (files_of reader source)) }
    ensures prelude_begins { (p : Program) (cells : ℕ) → InPlace untold (at_home file) (file_sight prelude_of_text) (file_body prelude_of_text) (file_frame (file_code [] None prelude_of_text) 0 (stand top_frame 0) [] []) (with_environment None (all_nil (locals_of [] prelude_of_text)) (record (start_world p) { cells = cells })) }
    ensures file_begins { (reader : DataReader) (source : SourceTree) (path : Bytes) (load : Option ℕ) (t : Tree) (outside : Option (Bytes × ℕ)) (running calling : List ℕ) (w : World) → IsStored w → WorldHoused untold w → (files_of reader source).ruby path ≡ ruby_tree t → InPlace untold (at_home file) (file_sight t) (file_body t) (file_frame (file_code path load t) (next_environment w) outside running calling) (with_environment None (all_nil (locals_of [] t)) w) }
    ensures plain { (reader : DataReader) (source : SourceTree) (p : Program) → WorldHoused untold (world_of (program_run (files_of reader source) prelude_of_text p (start_world p))) }
{}

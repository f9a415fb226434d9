//! The files of a source tree, the tree of the prelude, and the answer to a source tree, words and
//! input: there is one of each, and it is a function.
ghost use Rattle.std.specs.Prelude.{◌≡◌, ◌↔◌, List};
ghost use Rattle.bs_outside.specs.SourceTree.{SourceTree};
ghost use Rattle.ruby_tree.specs.Names.{Bytes};
ghost use Rattle.ruby_tree.specs.Tree.{Tree};
ghost use Rattle.reference_parser.specs.ReadingOf.{tree, reading_of};
ghost use Rattle.ruby_meaning.specs.Files.{Files};
ghost use Rattle.ruby_meaning.specs.FilesOf.{DataReader, reads_by, AreFilesOf, files_of};
ghost use Rattle.ruby_meaning.specs.Prelude.{prelude_text};
ghost use Rattle.ruby_meaning.specs.PreludeTree.{prelude_tree};
ghost use Rattle.ruby_meaning.specs.PlainRun.{Program, PlainAnswer, IsPrelude, IsPlainRun, plain_run_of};
ghost use Rattle.ruby_meaning.specs.AnswerOf.{Answer, IsAnswer, answer_for};

/// The files of a source tree, where data is read by a function, are those that `files_of` gives.
pub fn files_are_one()
    ensures { (reader : DataReader) (source : SourceTree) (files : Files) → AreFilesOf (reads_by reader) source files ↔ (files ≡ files_of reader source) }
{}

/// The text of the prelude is read as the tree that is written out, and this is the prelude's tree
/// alone.
pub fn prelude_is_one()
    ensures reading { reading_of prelude_text ≡ tree prelude_tree }
    ensures one { (t : Tree) → IsPrelude t ↔ (t ≡ prelude_tree) }
{}

/// A program has one plain run over a source tree: that which `plain_run_of` gives.
pub fn plain_run_is_one()
    ensures { (reader : DataReader) (source : SourceTree) (p : Program) (answer : PlainAnswer) → IsPlainRun (reads_by reader) source p answer ↔ (answer ≡ plain_run_of reader source p) }
{}

/// There is one answer to a source tree, words and input: that which `answer_for` gives.
pub fn answer_is_one()
    ensures { (reader : DataReader) (source : SourceTree) (words : List Bytes) (input : Bytes) (answer : Answer) → IsAnswer (reads_by reader) source words input answer ↔ (answer ≡ answer_for reader source words input) }
{}

//! What a list of words asks for, and the answer to it.
ghost use Rattle.std.specs.Prelude.{◌≡◌, ℕ, List, length};
ghost use Rattle.bs_outside.specs.SourceTree.{SourceTree};
ghost use Rattle.ruby_tree.specs.Names.{Bytes};
ghost use Rattle.ruby_meaning.specs.FilesOf.{DataReader, reads_by};
ghost use Rattle.ruby_meaning.specs.Words.{bad, plan_of};
ghost use Rattle.ruby_meaning.specs.AnswerOf.{Answer, usage_answer, IsAnswer};
ghost use Rattle.ruby_meaning.specs.WordLaws.{IsPlanOf};
ghost use Rattle.ruby_meaning.specs.WordRows.{PlansOfRuns, BadRuns, PlansOfPools, OtherPlans, WholeAnswers, TreesOfAnswers, WorkloadRows};

/// Each list of words has a plan: its paths are named by words, its numbers are those that the
/// command takes, and a bad place is that of a word or the one behind the last. Where a word is
/// bad, the answer says its place and nothing else.
pub fn plans_are_of_words()
    ensures plans { (words : List Bytes) → IsPlanOf (length words) (plan_of words) }
    ensures bad_words { (reader : DataReader) (source : SourceTree) (words : List Bytes) (input : Bytes) (k : ℕ) (answer : Answer) → plan_of words ≡ bad k → IsAnswer (reads_by reader) source words input answer → answer ≡ usage_answer k }
{}

/// What small lists of words ask for.
pub fn small_lists_of_words()
    ensures runs { PlansOfRuns }
    ensures bad_runs { BadRuns }
    ensures pools { PlansOfPools }
    ensures others { OtherPlans }
{}

/// Whole answers over source trees, by what their texts are read as, and the texts of a workload.
pub fn whole_answers()
    ensures answers { (reader : DataReader) (input : Bytes) → WholeAnswers reader input }
    ensures trees { TreesOfAnswers }
    ensures workloads { WorkloadRows }
{}

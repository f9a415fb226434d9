//! Laws of the trees of texts. Each is proved once, and its function does nothing. There is no
//! product code.
#![tactic(auto)]

pub mod runs;

ghost use Rattle.std.specs.Prelude.{◌<◌, ◌^◌, ℕ, List, nat_eq, length, false, None};
ghost use Rattle.std.specs.List.{IsDistinct, AllByRecursion};
ghost use Rattle.ruby_lexer.specs.Bytes.{Bytes};
ghost use Rattle.ruby_lexer.specs.Tokens.{before_end};
ghost use Rattle.ruby_tree.specs.Tree.{Tree};
ghost use Rattle.ruby_tree.specs.Reading.{Reads};
ghost use Rattle.ruby_meaning.specs.Sequences.{places, sequence_number};
ghost use Rattle.tree_laws.specs.Numbering.{Has};
ghost use Rattle.tree_laws.specs.Formed.{IsFormed, IsBody};
ghost use Rattle.ruby_meaning.specs.Loads.{file_body};
ghost use Rattle.tree_laws.specs.Nesting.{Nested};
ghost use Rattle.ruby_meaning.specs.Levels.{file_sight, IsHoused};

/// No two sequences of a text's tree begin at one place, so that their numbers tell them apart; and
/// each begins within the text, at a place of at most 64 bits.
pub fn sequences_begin_apart()
    ensures apart { (source : Bytes) (t : Tree) → Reads source t → IsDistinct nat_eq (places t) }
    ensures small { (source : Bytes) (t : Tree) → Reads source t → AllByRecursion (λ p. p < 2 ^ 64) (places t) }
    ensures within { (source : Bytes) (t : Tree) → Reads source t → AllByRecursion (λ p. p < length (before_end source)) (places t) }
{}

/// Each local that is read or set in a text's tree is held where it stands: by the environment of
/// the body that it stands in, or by one outward. So are the parameters that a `super` without
/// arguments hands on.
pub fn locals_are_held()
    ensures held { (source : Bytes) (t : Tree) → Reads source t → IsHoused None (file_sight t) t }
{}

/// Sequences are numbered in the order of their places: the number of one is less than that of each
/// that begins behind it.
pub fn sequence_numbers_rise()
    ensures rise { (places : List ℕ) (q p : ℕ) → Has q places → q < p → sequence_number places q < sequence_number places p }
{}

/// In a text's tree each form stands in its place: bodies as those of methods, classes, modules and
/// blocks, with parameters in order and of distinct names, the parts of rescues and ensures as
/// theirs, and what begins a rescue again or raises its exception again directly in its clauses. No
/// call has two blocks, what is spread is an argument, and each path has a name. So is the body of
/// a file that has this tree.
pub fn trees_are_formed()
    ensures formed { (source : Bytes) (t : Tree) → Reads source t → IsFormed false t }
    ensures file { (source : Bytes) (t : Tree) → Reads source t → IsBody (file_body t) }
{}

/// Each body and each block of a text's tree begins a sequence, and each sequence within another one
/// begins behind it. A rescue or ensure part begins behind all that begins in what it protects. So
/// the number of a sequence is greater than those of the sequences around it.
pub fn sequences_nest()
    ensures nested { (source : Bytes) (t : Tree) → Reads source t → Nested t }
{}

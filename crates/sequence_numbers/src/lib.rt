//! The numbers of the sequences of a file.
#![tactic(auto)]

ghost use Rattle.std.specs.Prelude.{◌≡◌, ℕ, length, IfOk};
ghost use Rattle.ruby_tree.specs.Names.{Texts};
ghost use Rattle.ruby_tree.specs.Read.{tree_of};
ghost use Rattle.ruby_meaning.specs.Sequences.{places, sequence_number};

mod lists;
mod walk;

use bs_outside::NoMemory;
use ruby_tree::Node;
use std::alloc::Global;
use std::marker::Model;

/// The places of the sequences that stand in a file's tree, by which they are numbered. Contracts see the places in ascending order.
///
/// The file's own sequence has the number 0, and no place.
#[derive(Drop)]
pub struct SequenceNumbers {
    places: Vec<u64>,
}

impl Model for SequenceNumbers {
    ghost use Rattle.std.specs.Prelude.{ℕ, List};
    ghost use Rattle.std.specs.List.Sorted.{IsNonDecreasing};

    ghost Value = { List ℕ };

    ghost view = { λ numbers. numbers.places.items };

    ghost invariant = { λ numbers. IsNonDecreasing numbers.places.items };
}

impl SequenceNumbers {
    /// The numbers of the sequences in the tree of a file: one pass down the tree, and a sort of what it finds.
    pub fn of_tree(alloc: Global, tree: &Node) -> Result<SequenceNumbers, NoMemory>
        ensures numbers { IfOk result (λ numbers. (texts : Texts) (place : ℕ) → sequence_number numbers place ≡ sequence_number (places (tree_of texts tree.now)) place) }
        ensures len { IfOk result (λ numbers. (texts : Texts) → length numbers ≡ length (places (tree_of texts tree.now))) }
    {
        let mut places = Vec::new(alloc);
        walk::add_tree(&mut places, tree)?;
        places.sort_unstable();
        Ok(SequenceNumbers { places })
    }

    /// How many sequences stand in the tree, beside the file's own.
    pub fn len(&self) -> usize
        ensures { result ≡ length self.now }
    {
        self.places.len()
    }

    /// The number of the sequence at a place. It is found by halves.
    pub fn number(&self, place: u64) -> usize
        ensures { result ≡ sequence_number self.now place }
    {
        self.places.partition_point(|other| *other < place) + 1
    }
}

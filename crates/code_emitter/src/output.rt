//! What the code of nodes is written into.
ghost use Rattle.std.specs.Prelude.{◌≡◌, [], ◌∷◌, ◌++◌, map, OnOk};
ghost use Rattle.ruby_tree.specs.Names.{Texts};
ghost use Rattle.ruby_tree.specs.Read.{tree_of};
ghost use Rattle.code_writer.specs.Writing.{nothing};
ghost use Rattle.code_emitter.specs.Emitting.{written, child_of, children_of};

use bs_outside::NoMemory;
use code_writer::CodeWriter;
use iseq_types::SeqKind;
use ruby_tree::{Name, Node};
use std::alloc::Global;

/// A sequence that stands directly in the one that is written.
#[derive(Drop)]
pub struct Child<'a> {
    pub kind: SeqKind,
    /// The name of a method, a class or a module.
    pub name: Option<Name>,
    /// Whether it stands in a loop of the sequence around it.
    pub in_loop: bool,
    pub tree: &'a Node,
}

/// The code of a sequence that is written, and the sequences that were found in it, each before
/// those that stand in front of it.
#[derive(Drop)]
pub struct Output<'a> {
    pub code: CodeWriter,
    pub children: Vec<Child<'a>>,
}

impl<'a> Output<'a> {
    /// Nothing is written or found.
    pub fn new(alloc: Global) -> Output<'a>
        ensures code { written result ≡ nothing }
        ensures children { result.children.items ≡ [] }
    {
        Output {
            code: CodeWriter::new(alloc),
            children: Vec::new(alloc),
        }
    }

    /// Notes a sequence that was found.
    pub fn note(&mut self, child: Child<'a>) -> Result<(), NoMemory>
        ensures code { OnOk result (written self.new ≡ written self.old) }
        ensures children { (texts : Texts) → OnOk result (children_of texts self.new ≡ children_of texts self.old ++ child_of texts child.entry ∷ []) }
    {
        self.children.push(child)?;
        Ok(())
    }
}

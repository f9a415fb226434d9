//! Where a statement stands.
ghost use Rattle.std.specs.Prelude.{◌≡◌};
ghost use Rattle.ruby_tree.specs.Read.{tree_of};
ghost use Rattle.ruby_tree.specs.Views.{read_other};
ghost use Rattle.small_form.specs.SmallForm.{is_plain, spot_in, stands_in};

use bs_outside::TextMap;
use ruby_tree::{Node, SymbolTable};
use std::alloc::Global;

/// The names that earlier lines assigned.
pub type Names = TextMap<()>;

/// The line in which a statement has to stand, and the names that earlier lines assigned.
#[derive(Clone, Copy, Drop)]
pub struct Site<'a> {
    pub alloc: Global,
    /// The names in the tree.
    pub symbols: &'a SymbolTable,
    pub names: &'a Names,
    pub line: u64,
}

impl<'a> Site<'a> {
    /// Whether the node stands in the line.
    #[tactic(auto, using(ruby_tree::proofs::Opened::opened, std::proofs::lemmas::Grind::common_steps))]
    pub fn has(&self, node: &Node) -> bool
        ensures { result ≡ stands_in self.now.line (spot_in (tree_of self.now.symbols.now node.now)) }
    {
        node.first == self.line && node.line == self.line
    }

    /// Whether a call passes nothing but arguments that stand by themselves, and is no name alone.
    #[tactic(auto, unfolding(crate::specs::SmallForm::is_plain))]
    pub fn is_plain(
        &self,
        spread: &[u64],
        value: &Option<Box<Node>>,
        alone: bool,
        block: &Option<Box<Node>>,
    ) -> bool
        ensures { result ≡ is_plain spread.now (read_other self.now.symbols.now value.now) alone (read_other self.now.symbols.now block.now) }
    {
        spread.is_empty() && value.is_none() && !alone && block.is_none()
    }
}

//! A file that was read.
ghost use Rattle.ruby_tree.specs.Programs.{IsProgram};

use crate::{Node, SymbolTable};

/// The tree of a file, and its names.
#[derive(Drop)]
pub struct Program {
    /// The statements of the file.
    pub root: Node,
    /// The names in the tree.
    pub symbols: SymbolTable,
    pub ghost whole: { ∥ IsProgram symbols root ∥₁ },
}

//! What an operand was read as.
use ruby_tree::{Name, SourcePosition};
use tree_builder::Subtree;

/// What an operand was read as: itself, or a part that is set or goes on as a command.
#[derive(Drop)]
pub enum OperandForm {
    /// The operand.
    Operand(Subtree),
    /// An attribute that is set by what stands behind it: the receiver, where the whole stands, and the attribute's name.
    Attribute(Subtree, SourcePosition, Name),
    /// An element that is set by what stands behind it: the receiver, where the whole stands, and the index.
    Element(Subtree, SourcePosition, Subtree),
    /// The receiver of a command, whose arguments stand behind it: whether it may be nil, the receiver, where the whole stands, and the name.
    Command(bool, Subtree, SourcePosition, Name),
}

//! The syntax tree of a Ruby file, the names in it, and the grammar by which a text has a tree.
#![tactic(auto)]

mod names;
mod node;
mod params;
mod placement;
mod positions;
mod program;
mod surroundings;

pub use names::{Name, SymbolTable};
pub use node::{
    Assignment, Call, Collection, Control, Definition, Exit, Handler, Kind, Literal, Node, Param,
    Target, TextPart, Variable,
};
pub use placement::placement_fault;
pub use positions::SourcePosition;
pub use program::Program;
pub use surroundings::Misplaced;

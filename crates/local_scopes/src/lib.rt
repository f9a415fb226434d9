//! Where the locals in sight of a place in a tree are: in which environment, and at which place of it.
#![tactic(auto)]

mod environments;
mod gather;
mod kinds;
mod known;
mod locals;
mod scopes;

pub use environments::Local;
pub use kinds::BodyKind;
pub use scopes::LocalScopes;

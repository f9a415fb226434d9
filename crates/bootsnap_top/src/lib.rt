//! The top call: words, a source tree and streams go in, output, error text and an ending come out.
#![tactic(auto)]

mod arithmetic;
mod desks;
mod ending;
mod errors;
mod files;
mod machine;
mod notes;
mod pieces;
mod planning;
mod top;

pub use desks::Desk;
pub use ending::{Done, Ending, status};
pub use planning::{PlanError, Planned, Usage, plan};
pub use top::bootsnap;

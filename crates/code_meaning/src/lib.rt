//! What compiled code means: code in parts, what a sequence does in one frame, and what a list of frames does.
#![tactic(auto)]

pub mod laws;

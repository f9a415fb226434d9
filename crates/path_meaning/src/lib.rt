//! What the load path's scans and their store file mean.
#![tactic(auto)]

mod scans;

pub use scans::RootScan;

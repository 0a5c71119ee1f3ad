// The path from the root to a leaf: found, and read as requests; or walked, each node read when it is come to.
#![tactic(auto)]

pub mod descend;
pub mod path;
pub mod reads;

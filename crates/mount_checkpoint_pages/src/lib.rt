// The pages of the checkpoint in a pool, told by their headers alone, and what they add up to.
#![tactic(auto)]

pub mod checkpoint_page;
pub mod extent;
pub mod totals;

// The checkpoint found in a pool, and the scores taken from it.
#![tactic(auto)]

pub mod find;
pub mod marks;
pub mod scores;

// The rows of the work table filled from the pages of a pool, in one pass over them.
#![tactic(auto)]

pub mod fill;
pub mod pieces;
pub mod row;

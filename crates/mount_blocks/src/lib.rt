// The rules of blocks: what is written stands in front, one block is blank, and only the block of the newest page is partly written.
#![tactic(auto)]

pub mod block;
pub mod page;
pub mod rules;

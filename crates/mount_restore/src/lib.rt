// Questions 7 and 8 of document 01: the rows restored from a pool, and the tree that they say.
#![tactic(auto)]

pub mod questions;
pub mod scores;
pub mod table;

// Get and delete: the walk down to the leaf of a key, and what is done there.
#![tactic(auto)]

pub mod delete;
pub mod get;
pub mod value;

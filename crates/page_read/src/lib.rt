// The page reader: what a page is, and what stands in its fields.
#![tactic(auto)]

pub mod field;
pub mod seal;
pub mod value;
pub mod view;

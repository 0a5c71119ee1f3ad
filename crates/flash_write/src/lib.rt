// What a request writes of its node: a whole content under a new version, a node page, one entry.
#![tactic(auto)]

pub mod edit;
pub mod group;
pub mod node_page;

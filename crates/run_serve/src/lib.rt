// One node request served: by the node's account, in the mode that the account says.
#![tactic(auto)]

pub mod charged;
pub mod content;
pub mod request;
pub mod settle;
pub mod write;

// Where the next page goes.
#![tactic(auto)]

pub mod allocate;
pub mod compact;
pub mod flash;
pub mod state;

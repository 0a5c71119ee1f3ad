// Pages and blocks of the pool: whole pages read, written and copied, blocks erased, blank blocks found.
#![tactic(auto)]

pub mod blank;
pub mod page;

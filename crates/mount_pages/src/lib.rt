// The pages of a pool one after another: each judged by itself, and the versions of log entries held against all sequence numbers.
#![tactic(auto)]

pub mod collect;
pub mod versions;

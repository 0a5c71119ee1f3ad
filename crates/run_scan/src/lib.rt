// Scan: the pairs from a low key to a high one, leaf after leaf by links.
#![tactic(auto)]

pub mod answer;
pub mod gather;
pub mod scan;

use layout::MOST_PAIRS;

// The pairs found: the first `count` keys, ascending, with the values beside them.
#[derive(Drop)]
pub struct Pairs {
    pub keys: [u32; MOST_PAIRS],
    pub values: [u32; MOST_PAIRS],
    pub count: usize,
}

// A pair put into a leaf, and the splits that it makes, from the leaf upwards.
#![tactic(auto)]

pub mod absorb;
pub mod split;
pub mod split_upwards;

// What a node may have still to take: a leaf its pair; a branch the halves of a child, with the key between them.
#[derive(Clone, Copy, Debug, PartialEq, Eq)]
pub enum Pending {
    Pair { key: u32, value: u32 },
    Halves { middle: u32, left: u32, right: u32 },
}

// After a node took its edits: what they were charged, and what the node above has still to take.
#[derive(Clone, Copy, Debug, PartialEq, Eq)]
pub struct Absorbed {
    pub charge: u64,
    pub pending: Option<Pending>,
}

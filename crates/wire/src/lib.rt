// What pages and batches are made of: numbers, sums, tags and fields in byte slices.
#![tactic(auto)]

pub mod bytes;
pub mod field;
pub mod number;
pub mod record;
pub mod sum;
pub mod tag;

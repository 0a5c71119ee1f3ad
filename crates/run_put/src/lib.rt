// The command put (document 01: hang): refused where too few node ids are unused, else the reads of the path, then one edit or the splits.
#![tactic(auto)]

pub mod ids;
pub mod put;

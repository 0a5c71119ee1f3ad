// What a caller lends, asked about in the documents' order before anything is stored: the first no is the refusal.
#![tactic(auto)]

pub mod batch;
pub mod desk;
pub mod prepare;
pub mod sizes;

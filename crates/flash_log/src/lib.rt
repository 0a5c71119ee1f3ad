// The log buffer: entries appended to it, and the buffer written as a page.
#![tactic(auto)]

pub mod claim;
pub mod entry;
pub mod flush;

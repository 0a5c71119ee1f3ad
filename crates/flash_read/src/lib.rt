// A node's content read back from the pages that its row names, and from the buffer.
#![tactic(auto)]

pub mod by_id;
pub mod content;
pub mod lent;
pub mod node_page;
pub mod replay;
pub mod slot;

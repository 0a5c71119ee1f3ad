// Writers of pages: each kind of page as an image, and the place of a page in the pool filled with it.
#![tactic(auto)]

pub mod frame;
pub mod log_page;
pub mod node_page;

// Paging: a segment goes out to a buffer, and comes in to another.
#![tactic(auto)]

pub mod page;
pub mod page_in;
pub mod page_out;

// What the operations share: what is handed back, and a new number for what is issued.
#![tactic(auto)]

pub mod allot;
pub mod reply;
pub mod request;

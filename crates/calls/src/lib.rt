// Calls of the interface: what they ask, and what is made of it.
#![tactic(auto)]

pub mod call;

// The operations of the northbridge: methods of its state over the table and the memory.
#![tactic(auto)]

pub mod access;
pub mod lock;
pub mod page;
pub mod reference;
pub mod segment;
pub mod state;

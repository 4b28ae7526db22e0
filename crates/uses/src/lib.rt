// Demand 3 used on small lists with the real tags, in specs/ and proofs/: its premises are met, and
// two of them are needed. This crate has no code to call: a crate needs an item, and this is it.
#![tactic(auto)]

#[derive(Clone, Copy)]
pub struct Used {}

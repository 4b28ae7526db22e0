// The recorded sessions and the examples of 01, served by the machine's definitions: in specs/ and
// proofs/. This crate has no code to call: a crate needs an item, and this is it.
#![tactic(auto)]

#[derive(Clone, Copy)]
pub struct Served {}

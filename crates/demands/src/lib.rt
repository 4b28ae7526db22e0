// The three demands of the exported functions stand in specs/, as definitions and theorems. This crate
// has no code to call: a crate needs an item, and this is it.
#![tactic(auto)]

#[derive(Clone, Copy)]
pub struct Demanded {}

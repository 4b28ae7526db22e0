// Altering: the writes that free and alter entries, and reset's.
#![tactic(auto)]

pub mod writes;

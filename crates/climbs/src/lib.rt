// Climbs: how a drop goes up a line.
#![tactic(auto)]

pub mod climb;

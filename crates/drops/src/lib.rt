// Drop, which takes one from the count of a reference, and climbs.
#![tactic(auto)]

pub mod drop;

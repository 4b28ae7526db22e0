// Merge, which joins two segments that lie side by side.
#![tactic(auto)]

pub mod merge;

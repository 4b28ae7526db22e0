// Tags of entries.
#![tactic(auto)]

pub mod tag;

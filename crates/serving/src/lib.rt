// Any request, served.
#![tactic(auto)]

pub mod serve;

// New numbers in the table.
#![tactic(auto)]

pub mod numbers;

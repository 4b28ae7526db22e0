// Issuing: the writes that issue entries.
#![tactic(auto)]

pub mod writes;

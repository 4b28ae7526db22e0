// Leases (02, paper 4): the minutes of the week in which a token is open.
#![tactic(auto)]

pub mod lease;

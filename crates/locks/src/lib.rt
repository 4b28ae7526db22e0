// Lock and unlock.
#![tactic(auto)]

pub mod lock;

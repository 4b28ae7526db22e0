// Tokens (Table 1), and the permissions that entries and requests carry.
#![tactic(auto)]

pub mod permissions;
pub mod read;
pub mod token;

// Entering: an entry gets its tag under its number and is stored; and the search for its nonce.
#![tactic(auto)]

pub mod issue;
pub mod nonces;

// Intel HEX text, judged and stored.
#![tactic(auto)]

pub mod digits;
pub mod record;
pub mod store;
pub mod text;

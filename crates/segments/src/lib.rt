// Operations on whole segments: reset, create, revoke.
#![tactic(auto)]

pub mod create;
pub mod reset;
pub mod revoke;

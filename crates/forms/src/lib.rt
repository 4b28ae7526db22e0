// Which entries are ill-formed.
#![tactic(auto)]

pub mod form;

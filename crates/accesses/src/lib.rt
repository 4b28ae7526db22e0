// Accesses: read, write and fetch.
#![tactic(auto)]

pub mod access;

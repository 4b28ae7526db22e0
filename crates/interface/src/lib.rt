// The interface for C and Rust as bytes: requests, states and answers. specs/ has what a call does.
#![tactic(auto)]

pub mod answer;
pub mod request;
pub mod state;
pub mod words;

// The table: entries by number, the line of an entry; and the words of the state.
#![tactic(auto)]

pub mod cut;
pub mod entries;
pub mod line;
pub mod state;

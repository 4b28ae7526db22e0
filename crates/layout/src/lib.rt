// Entries of the table (Table 2): their layout. What their form and their tags are is in specs/; crates forms and tags have the code.
#![tactic(auto)]

pub mod entry;
pub mod fields;

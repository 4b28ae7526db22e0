// Load images: texts of Intel HEX.
#![tactic(auto)]

pub mod dump;
pub mod image;
pub mod load;
pub mod segment;

// Operations on references to a segment: derive, execute-only, clone.
#![tactic(auto)]

mod child;
pub mod clone;
pub mod derive;
pub mod execute_only;

// The refusals, and the checks that many requests share: sizes and settings, the named entry, its
// line, the lock, the bounds, the shift.
#![tactic(auto)]

pub mod bounds;
pub mod reach;
pub mod refusal;
pub mod settings;
pub mod shift;

// Leases and the minute that an access brings: place 1.
ghost use Rattle.std.specs.Prelude.{◌≡◌};
ghost use Rattle.checks.specs.Holds.{shift_holds};
ghost use Rattle.checks.specs.Shifts.{shift_as};

use leases::lease::{WEEK, fits};

// The table of leases has its size, and the minute lies in the week.
#[tactic(auto, unfolding(crate::specs::Holds::shift_holds))]
pub fn shift_fits(leases: &[u8], minute: u64) -> bool
    ensures { result ≡ shift_holds (shift_as minute leases.now) }
{
    fits(leases) & (minute < WEEK)
}

// Permissions: one number, R 4, W 2, X 1, added.
ghost use Rattle.std.specs.Prelude.{◌≡◌};
ghost use Rattle.tokens.specs.Permissions.{within};

// The wanted permissions lie within those held: no bit is wanted that is not held. Only the low three
// bits of each are looked at.
#[tactic(auto, using(crate::proofs::PermissionLaws::formula))]
pub fn within(wanted: u8, held: u8) -> bool
    ensures { result ≡ within wanted held }
{
    (wanted & !held & 7) == 0
}

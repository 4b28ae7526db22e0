// Sizes and settings: place 1, as far as it is the same for all requests.
ghost use Rattle.std.specs.Prelude.{◌≡◌};
ghost use Rattle.table.specs.States.{state_as};
ghost use Rattle.checks.specs.Holds.{settings_hold, sizes_hold};

use table::state::StateWords;

// Memory has 1 to 16,777,216 bytes, and the table 2 to 1,024 whole entries.
#[tactic(auto, unfolding(crate::specs::Holds::sizes_hold, machine::specs::Parts::size))]
pub fn sizes(memory: u64, table: &[u8]) -> bool
    ensures { result ≡ sizes_hold memory table.now }
{
    let bytes = table.len();
    let entries = bytes / 32;
    (1 <= memory) & (memory <= 16777216) & (bytes % 32 == 0) & (2 <= entries) & (entries <= 1024)
}

// And the last number lies in the table, the next nonce in 1 to 2^32, and the total of free numbers
// below the number of entries.
pub fn settings(memory: u64, s: StateWords, table: &[u8]) -> bool
    ensures { result ≡ settings_hold memory (state_as s) table.now }
{
    let entries = (table.len() / 32) as u64;
    sizes(memory, table)
        & (s.last < entries)
        & (1 <= s.next)
        & (s.next <= 4294967296)
        & (s.total < entries)
}

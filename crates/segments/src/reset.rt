// Reset: the root over all of memory, and nothing else.
ghost use Rattle.std.specs.Prelude.{◌≡◌, []};
ghost use Rattle.machine.specs.Parts.{State};
ghost use Rattle.checks.specs.Refusals.{checked_as};
ghost use Rattle.rulings.specs.Asked.{reset_as};
ghost use Rattle.rulings.specs.Rulings.{verdict_on};
ghost use Rattle.rulings.specs.Served.{ServedAlone};

use altering::writes::begin;
use checks::refusal::Refusal;
use checks::settings::sizes;
use rulings::reply::{Granted, plain};
use rulings::request::Reset;
use table::state::StateWords;

// The state, which is replaced, is not judged.
fn check_reset(table: &[u8], memory: u64, request: Reset) -> Result<(), Refusal>
    ensures { (s : State) → checked_as result ≡ verdict_on memory s table.now (reset_as request) [] }
{
    let nonce = request.first_nonce;
    if !(sizes(memory, table) & (1 <= nonce) & (nonce < 1 << 32)) {
        return Err(Refusal::Request);
    }
    Ok(())
}

// Writes the root entry, makes all other entries zeros, and starts from the key and nonce.
pub fn reset(
    s: &mut StateWords,
    table: &mut [u8],
    memory: &[u8],
    request: Reset,
) -> Result<Granted, Refusal>
    ensures { ServedAlone (reset_as request) s.old table.old memory.now s.new table.new memory.now result }
{
    let bytes = memory.len() as u64;
    check_reset(table, bytes, request)?;
    let Reset {
        key0,
        key1,
        first_nonce,
    } = request;
    begin(s, table, bytes, key0, key1, first_nonce);
    Ok(plain(0))
}

// Clone adds one to the count.
ghost use Rattle.std.specs.Prelude.{◌≡◌, [], Ok, ℕ, ◌+◌, ◌*◌, ◌≤◌, ◌<◌, length};
ghost use Rattle.checks.specs.Refusals.{checked_as};
ghost use Rattle.machine.specs.Parts.{at};
ghost use Rattle.machine.specs.Requests as request;
ghost use Rattle.table.specs.States.{state_as};
ghost use Rattle.table.specs.declared.state.StateWords.{StateWords};
ghost use Rattle.rulings.specs.Rulings.{granting, handed, verdict_on};
ghost use Rattle.rulings.specs.Served.{ServedAlone};

use altering::writes::recount;
use checks::reach::reach_near;
use checks::refusal::Refusal;
use checks::settings::settings;
use layout::entry::count_of;
use rulings::reply::{Granted, plain};
use table::entries::{entry_at, words_at};
use table::state::StateWords;
use tokens::read::Token;

fn check_clone(s: StateWords, table: &[u8], memory: u64, token: Token) -> Result<(), Refusal>
    ensures { checked_as result ≡ verdict_on memory (state_as s) table.now (request.clone token.word) [] }
{
    if !(settings(memory, s, table) & (token.named.offset == 0)) {
        return Err(Refusal::Request);
    }
    reach_near(table, memory, token)?;
    let e = entry_at(table, token.named.number as usize);
    if e.count >= 65535 {
        return Err(Refusal::Standing);
    }
    Ok(())
}

// The count of the token's entry rises by one.
fn grant_clone(table: &mut [u8], token: Token) -> Granted
    requires in_bounds { 32 * token.named.number + 32 ≤ length table.old }
    requires has_room { (at table.old token.named.number).count < 65535 }
    ensures { (m : ℕ) (s : StateWords) → handed s table.new (Ok result) ≡ granting m (state_as s) table.old (request.clone token.word) [] }
{
    let n = token.named.number as usize;
    let w = words_at(table, n);
    recount(table, n, w, count_of(w) + 1);
    plain(0)
}

// One more holder of the token.
pub fn clone(s: StateWords, table: &mut [u8], memory: &[u8], token: u64) -> Result<Granted, Refusal>
    ensures { ServedAlone (request.clone token) s table.old memory.now s table.new memory.now result }
{
    let token = Token::from(token);
    check_clone(s, table, memory.len() as u64, token)?;
    Ok(grant_clone(table, token))
}

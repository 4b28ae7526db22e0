// Drop takes one from the count; an indirect entry at 1 is freed, and the drop climbs.
ghost use Rattle.std.specs.Prelude.{◌≡◌, [], Ok};
ghost use Rattle.checks.specs.Reached.{Forms};
ghost use Rattle.machine.specs.Line.{is_locked, line_of};
ghost use Rattle.machine.specs.Operations.{number_of};
ghost use Rattle.machine.specs.Requests as request;
ghost use Rattle.machine.specs.Steps.{pass};
ghost use Rattle.table.specs.States.{state_as};
ghost use Rattle.rulings.specs.Rulings.{granting, handed, verdict_on};
ghost use Rattle.rulings.specs.Served.{ServedAlone};

use checks::reach::forms;
use checks::refusal::Refusal;
use checks::settings::settings;
use climbs::climb::fall;
use rulings::reply::{Granted, plain};
use table::entries::entry_at;
use table::state::StateWords;
use tokens::read::Token;

// Place 4 is skipped. Tells whether the token's line is locked.
fn check_drop(s: StateWords, table: &[u8], memory: u64, token: Token) -> Result<bool, Refusal>
    ensures { Forms result (verdict_on memory (state_as s) table.now (request.release token.word) []) (is_locked table.now (line_of memory table.now (number_of token.word))) }
{
    if !(settings(memory, s, table) & (token.named.offset == 0)) {
        return Err(Refusal::Request);
    }
    let locked = forms(table, memory, token)?;
    let e = entry_at(table, token.named.number as usize);
    if e.count == 0 {
        return Err(Refusal::Standing);
    }
    Ok(locked)
}

// At count 1 under a lock nothing changes.
fn grant_drop(
    s: &mut StateWords,
    table: &mut [u8],
    memory: u64,
    token: Token,
    locked: bool,
) -> Granted
    requires token_value { verdict_on memory (state_as s.old) table.old (request.release token.word) [] ≡ pass }
    requires locked_value { locked ≡ is_locked table.old (line_of memory table.old (number_of token.word)) }
    ensures { handed s.new table.new (Ok result) ≡ granting memory (state_as s.old) table.old (request.release token.word) [] }
{
    let n = token.named.number as usize;
    let e = entry_at(table, n);
    let one = e.count == 1;
    if one & locked {
        return plain(0);
    }
    s.total = fall(s.total, table, n);
    if one { plain(1) } else { plain(0) }
}

// One holder of the token less.
pub fn drop(
    s: &mut StateWords,
    table: &mut [u8],
    memory: &[u8],
    token: u64,
) -> Result<Granted, Refusal>
    ensures { ServedAlone (request.release token) s.old table.old memory.now s.new table.new memory.now result }
{
    let bytes = memory.len() as u64;
    let token = Token::from(token);
    let locked = check_drop(*s, table, bytes, token)?;
    Ok(grant_drop(s, table, bytes, token, locked))
}

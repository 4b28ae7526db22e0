// Lock sets the lock of the line's owner, and unlock clears it.
ghost use Rattle.std.specs.Prelude.{◌≡◌, [], Ok, ℕ, ◌+◌, ◌*◌, ◌^◌, ◌≤◌, ◌<◌, length};
ghost use Rattle.checks.specs.Reached.{Reaches};
ghost use Rattle.machine.specs.Line.{line_of};
ghost use Rattle.machine.specs.Operations.{number_of};
ghost use Rattle.machine.specs.Requests as request;
ghost use Rattle.table.specs.States.{state_as};
ghost use Rattle.table.specs.declared.state.StateWords.{StateWords};
ghost use Rattle.rulings.specs.Rulings.{first_on, handed, verdict_on};
ghost use Rattle.rulings.specs.Served.{ServedAlone};
ghost use Rattle.locks.specs.Locks.{relocking};

use altering::writes::relock;
use checks::reach::reach_open;
use checks::refusal::Refusal;
use checks::settings::settings;
use rulings::reply::{Granted, plain};
use table::entries::{entry_at, words_at};
use table::state::StateWords;
use tokens::read::Token;

// Places 1 to 5, which lock and unlock share, and the owner of the token's line. A part of both, since
// as a call it is handed the token through memory.
#[inline(always)]
fn check_owner(
    s: StateWords,
    table: &[u8],
    memory: u64,
    token: Token,
    task: u64,
) -> Result<usize, Refusal>
    ensures { Reaches table.now result (first_on memory (state_as s) table.now (request.lock token.word task) []) (line_of memory table.now (number_of token.word)) }
{
    if !(settings(memory, s, table) & (task < 1 << 55) & (task != 0) & (token.named.offset == 0)) {
        return Err(Refusal::Request);
    }
    reach_open(table, memory, token, task)
}

// And place 7: only a lockable owner is locked.
fn check_lock(
    s: StateWords,
    table: &[u8],
    memory: u64,
    token: Token,
    task: u64,
) -> Result<usize, Refusal>
    ensures { Reaches table.now result (verdict_on memory (state_as s) table.now (request.lock token.word task) []) (line_of memory table.now (number_of token.word)) }
{
    let owner = check_owner(s, table, memory, token, task)?;
    let e = entry_at(table, owner);
    if e.lockable {
        Ok(owner)
    } else {
        Err(Refusal::Right)
    }
}

// Or place 9: only a locked owner is unlocked.
fn check_unlock(
    s: StateWords,
    table: &[u8],
    memory: u64,
    token: Token,
    task: u64,
) -> Result<usize, Refusal>
    ensures { Reaches table.now result (verdict_on memory (state_as s) table.now (request.unlock token.word task) []) (line_of memory table.now (number_of token.word)) }
{
    let owner = check_owner(s, table, memory, token, task)?;
    let e = entry_at(table, owner);
    if e.locked {
        Ok(owner)
    } else {
        Err(Refusal::Standing)
    }
}

// The entry of number n gets another lock.
fn relock_at(table: &mut [u8], n: usize, locked: bool, holder: u64) -> Granted
    requires { (32 * n + 32 ≤ length table.old) × (holder < 2 ^ 55) }
    ensures { (s : StateWords) → handed s table.new (Ok result) ≡ relocking (state_as s) table.old n locked holder }
{
    relock(table, n, words_at(table, n), locked, holder);
    plain(0)
}

// The line is locked for the task.
pub fn lock(
    s: StateWords,
    table: &mut [u8],
    memory: &[u8],
    token: u64,
    task: u64,
) -> Result<Granted, Refusal>
    ensures { ServedAlone (request.lock token task) s table.old memory.now s table.new memory.now result }
{
    let owner = check_lock(s, table, memory.len() as u64, Token::from(token), task)?;
    Ok(relock_at(table, owner, true, task))
}

// The line is unlocked, by the task that holds its lock.
pub fn unlock(
    s: StateWords,
    table: &mut [u8],
    memory: &[u8],
    token: u64,
    task: u64,
) -> Result<Granted, Refusal>
    ensures { ServedAlone (request.unlock token task) s table.old memory.now s table.new memory.now result }
{
    let owner = check_unlock(s, table, memory.len() as u64, Token::from(token), task)?;
    Ok(relock_at(table, owner, false, 0))
}

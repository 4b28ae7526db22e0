// Execute-only makes a child over the whole segment that can only be fetched from.
ghost use Rattle.std.specs.Prelude.{◌≡◌, []};
ghost use Rattle.machine.specs.Operations.{grant};
ghost use Rattle.machine.specs.Requests as request;
ghost use Rattle.rulings.specs.Allotments.{allotted, Allots};
ghost use Rattle.table.specs.States.{state_as};
ghost use Rattle.rulings.specs.Rulings.{ended, front_on, handed, ruled};
ghost use Rattle.rulings.specs.Served.{ServedAlone};

use crate::child::{Part, allot_child, grant_child};
use checks::reach::reach_near;
use checks::refusal::Refusal;
use checks::settings::settings;
use rulings::reply::Granted;
use table::entries::entry_at;
use table::state::StateWords;
use tokens::permissions::within;
use tokens::read::Token;

fn check_execute_only(
    s: StateWords,
    table: &[u8],
    memory: u64,
    token: Token,
    encoding: u64,
) -> Result<usize, Refusal>
    ensures { Allots (state_as s) table.now result (front_on memory (state_as s) table.now (request.execute_only token.word encoding) []) }
{
    if !(settings(memory, s, table) & (encoding <= 3) & (token.named.offset == 0)) {
        return Err(Refusal::Request);
    }
    reach_near(table, memory, token)?;
    let e = entry_at(table, token.named.number as usize);
    if !within(1, e.permissions) {
        return Err(Refusal::Right);
    }
    allot_child(s, table, e)
}

fn grant_execute_only(
    s: &mut StateWords,
    table: &mut [u8],
    memory: u64,
    new: usize,
    token: Token,
    encoding: u64,
) -> Result<Granted, Refusal>
    requires { allotted memory (state_as s.old) table.old (request.execute_only token.word encoding) new }
    ensures { handed s.new table.new result ≡ ruled (ended (state_as s.old) table.old (grant memory table.old (request.execute_only token.word encoding) [])) }
{
    let n = token.named.number as usize;
    let e = entry_at(table, n);
    let whole = Part {
        offset: 0,
        length: e.length,
        permissions: 1,
    };
    grant_child(s, table, n, new, whole, encoding)
}

// A token for the segment with X alone.
pub fn execute_only(
    s: &mut StateWords,
    table: &mut [u8],
    memory: &[u8],
    token: u64,
    encoding: u64,
) -> Result<Granted, Refusal>
    ensures { ServedAlone (request.execute_only token encoding) s.old table.old memory.now s.new table.new memory.now result }
{
    let bytes = memory.len() as u64;
    let token = Token::from(token);
    let new = check_execute_only(*s, table, bytes, token, encoding)?;
    grant_execute_only(s, table, bytes, new, token, encoding)
}

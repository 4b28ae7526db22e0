// Derive makes a child over a part of the segment, or over all of it.
ghost use Rattle.std.specs.Prelude.{◌≡◌, [], ℕ, ◌+◌, ◌*◌, ◌≤◌, length};
ghost use Rattle.machine.specs.Operations.{grant, number_of};
ghost use Rattle.rulings.specs.Allotments.{allotted, Allots, Limits};
ghost use Rattle.rulings.specs.Asked.{derive_as};
ghost use Rattle.table.specs.States.{state_as};
ghost use Rattle.rulings.specs.Rulings.{ended, front_on, handed, inner_on, ruled};
ghost use Rattle.rulings.specs.Served.{ServedAlone};
ghost use Rattle.references.specs.Children.{derive_by};

use crate::child::{Part, allot_child, grant_child};
use checks::bounds::inside;
use checks::reach::reach_near;
use checks::refusal::Refusal;
use checks::settings::settings;
use rulings::reply::Granted;
use rulings::request::Derive;
use table::entries::entry_at;
use table::state::StateWords;
use tokens::permissions::within;
use tokens::read::Token;

// Places 7 to 10, which do not look at the encoding.
fn check_part(s: StateWords, table: &[u8], token: Token, request: Derive) -> Result<usize, Refusal>
    requires limits { Limits (state_as s) table.now × (request.permissions ≤ 7) }
    requires token_bound { 32 * number_of token.word + 32 ≤ length table.now }
    ensures { (m : ℕ) → Allots (state_as s) table.now result (inner_on m (state_as s) table.now (derive_by token.word request) []) }
{
    let e = entry_at(table, token.named.number as usize);
    if !within(request.permissions as u8, e.permissions) {
        return Err(Refusal::Right);
    }
    if !inside(request.length, request.offset, u64::from(e.length)) {
        return Err(Refusal::Bounds);
    }
    allot_child(s, table, e)
}

fn check_derive(
    s: StateWords,
    table: &[u8],
    memory: u64,
    token: Token,
    request: Derive,
) -> Result<usize, Refusal>
    ensures { Allots (state_as s) table.now result (front_on memory (state_as s) table.now (derive_by token.word request) []) }
{
    if !(settings(memory, s, table)
        & (request.encoding <= 3)
        & (request.permissions <= 7)
        & (request.length != 0)
        & (token.named.offset == 0))
    {
        return Err(Refusal::Request);
    }
    reach_near(table, memory, token)?;
    check_part(s, table, token, request)
}

fn grant_derive(
    s: &mut StateWords,
    table: &mut [u8],
    memory: u64,
    new: usize,
    token: Token,
    request: Derive,
) -> Result<Granted, Refusal>
    requires { allotted memory (state_as s.old) table.old (derive_by token.word request) new }
    ensures { handed s.new table.new result ≡ ruled (ended (state_as s.old) table.old (grant memory table.old (derive_by token.word request) [])) }
{
    let part = Part {
        offset: request.offset as u32,
        length: request.length as u32,
        permissions: request.permissions as u8,
    };
    grant_child(
        s,
        table,
        token.named.number as usize,
        new,
        part,
        request.encoding,
    )
}

// A token for a part of the segment, or for all of it, with no permission that its parent has not.
pub fn derive(
    s: &mut StateWords,
    table: &mut [u8],
    memory: &[u8],
    request: Derive,
) -> Result<Granted, Refusal>
    ensures { ServedAlone (derive_as request) s.old table.old memory.now s.new table.new memory.now result }
{
    let bytes = memory.len() as u64;
    let token = Token::from(request.token);
    let new = check_derive(*s, table, bytes, token, request)?;
    grant_derive(s, table, bytes, new, token, request)
}

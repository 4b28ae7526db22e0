// Create splits a segment: a front part gets a new number, and the rest keeps the old one.
ghost use Rattle.std.specs.Prelude.{◌≡◌, [], ℕ, ◌≤◌};
ghost use Rattle.machine.specs.Operations.{grant, named_entry};
ghost use Rattle.table.specs.States.{state_as};
ghost use Rattle.rulings.specs.Allotments.{allotted, Allots, Limits};
ghost use Rattle.rulings.specs.Asked.{create_as};
ghost use Rattle.rulings.specs.Rulings.{ended, front_on, handed, inner_on, ruled};
ghost use Rattle.rulings.specs.Served.{ServedAlone};
ghost use Rattle.tokens.specs.declared.read.Token as read;
ghost use Rattle.segments.specs.Creates.{create_with};

use altering::writes::vacate;
use checks::reach::reach_open;
use checks::refusal::Refusal;
use checks::settings::settings;
use entering::nonces::{find, find_two};
use issuing::writes::{give, issue_two};
use layout::entry::{DIRECT, Entry, issued_direct};
use rulings::allot::allot;
use rulings::reply::{Granted, giving, giving_two};
use rulings::request::Create;
use table::entries::entry_at;
use table::state::StateWords;
use tokens::permissions::within;
use tokens::read::Token;

// Places 6 to 10 for the entry e, whatever token names it. Gives the new number.
fn check_cut(s: StateWords, table: &[u8], e: Entry, request: Create) -> Result<usize, Refusal>
    requires { Limits (state_as s) table.now × (request.permissions ≤ 7) }
    ensures { (m : ℕ) (token : read.Token) → e ≡ named_entry table.now token.word → Allots (state_as s) table.now result (inner_on m (state_as s) table.now (create_with token request) []) }
{
    if e.kind != DIRECT {
        return Err(Refusal::Kind);
    }
    if !within(request.permissions as u8, e.permissions) {
        return Err(Refusal::Right);
    }
    if request.length > e.length as u64 {
        return Err(Refusal::Bounds);
    }
    if e.locked | (e.count != 0) {
        return Err(Refusal::Standing);
    }
    allot(s, table)
}

// All places but 11. Gives the new number.
fn check_create(
    s: StateWords,
    table: &[u8],
    memory: u64,
    token: Token,
    request: Create,
) -> Result<usize, Refusal>
    ensures { Allots (state_as s) table.now result (front_on memory (state_as s) table.now (create_with token request) []) }
{
    if !(settings(memory, s, table)
        & (request.task < 1 << 55)
        & (request.encoding <= 3)
        & (request.permissions <= 7)
        & (request.length != 0)
        & (token.named.offset == 0))
    {
        return Err(Refusal::Request);
    }
    reach_open(table, memory, token, request.task)?;
    let e = entry_at(table, token.named.number as usize);
    check_cut(s, table, e, request)
}

// The part is issued under the new number. The rest is issued anew, or freed if nothing is left. The
// nonces for both are found before anything is written.
fn grant_create(
    s: &mut StateWords,
    table: &mut [u8],
    memory: u64,
    new: usize,
    token: Token,
    request: Create,
) -> Result<Granted, Refusal>
    requires { allotted memory (state_as s.old) table.old (create_with token request) new }
    ensures { handed s.new table.new result ≡ ruled (ended (state_as s.old) table.old (grant memory table.old (create_with token request) [])) }
{
    let n = token.named.number as usize;
    let e = entry_at(table, n);
    let encoding = request.encoding;
    let long = request.length as u32;
    let part = issued_direct(
        e.base,
        long,
        request.user,
        request.permissions as u8,
        e.lockable,
    );
    if long == e.length {
        let found = find(*s, table, new, part).ok_or(Refusal::Nonces)?;
        let given = give(s, table, new, part, found, encoding);
        s.total = vacate(s.total, table, n);
        return Ok(giving(given));
    }
    let base = e.base + long;
    let left = e.length - long;
    let rest = issued_direct(base, left, e.user, e.permissions, e.lockable);
    let found = find_two(*s, table, new, part, n, rest).ok_or(Refusal::Nonces)?;
    let (first, second) = issue_two(s, table, new, part, n, rest, found, new, encoding);
    Ok(giving_two(first, second))
}

// A front part of the segment as a segment of its own, with a user and permissions, and the
// rest. Without a rest there is one token.
pub fn create(
    s: &mut StateWords,
    table: &mut [u8],
    memory: &[u8],
    request: Create,
) -> Result<Granted, Refusal>
    ensures { ServedAlone (create_as request) s.old table.old memory.now s.new table.new memory.now result }
{
    let bytes = memory.len() as u64;
    let token = Token::from(request.token);
    let new = check_create(*s, table, bytes, token, request)?;
    grant_create(s, table, bytes, new, token, request)
}

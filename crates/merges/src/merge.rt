// Merge joins two neighbours into one segment.
ghost use Rattle.std.specs.Prelude.{◌≡◌, List, [], ℕ, ◌+◌, ◌<◌, ◌^◌, Ok};
ghost use Rattle.layout.specs.Entry.{entry_of, words_number};
ghost use Rattle.machine.specs.Operations.{grant, merged_of, named_entry};
ghost use Rattle.machine.specs.Parts.{State};
ghost use Rattle.machine.specs.Requests as request;
ghost use Rattle.checks.specs.Refusals.{checked_as};
ghost use Rattle.table.specs.States.{state_as};
ghost use Rattle.rulings.specs.Asked.{merge_as};
ghost use Rattle.rulings.specs.Rulings.{ended, front_on, handed, inner_on, ruled};
ghost use Rattle.rulings.specs.Served.{ServedAlone};
ghost use Rattle.merges.specs.Neighbours.{Pairs};

use altering::writes::vacate;
use checks::reach::reach_open;
use checks::refusal::Refusal;
use checks::settings::settings;
use entering::nonces::find_anew;
use issuing::writes::reissue;
use layout::entry::{DIRECT, Entry, Words, issued_direct};
use rulings::reply::{Granted, giving};
use rulings::request::Merge;
use table::entries::entry_at;
use table::state::StateWords;
use tokens::read::Token;

// The numbers of the entries that a merge joins.
#[derive(Clone, Copy)]
pub struct Pair {
    pub first: usize,
    pub second: usize,
}

// Places 6 to 10, for the entries d and e that the tokens name: e starts where d ends.
fn neighbours(d: Entry, e: Entry) -> Result<(), Refusal>
    ensures { (m : ℕ) (s : State) (t : List ℕ) (i j u c : ℕ) → d ≡ named_entry t i → e ≡ named_entry t j → checked_as result ≡ inner_on m s t (request.merge i j u c) [] }
{
    if (d.kind != DIRECT) | (e.kind != DIRECT) {
        return Err(Refusal::Kind);
    }
    let end = (d.base as u64) + (d.length as u64);
    if (e.base as u64) != end {
        return Err(Refusal::Bounds);
    }
    if d.locked | e.locked | (d.count != 0) | (e.count != 0) {
        return Err(Refusal::Standing);
    }
    Ok(())
}

// The words of a direct entry over both, with the first's user and Lockable and the permissions both
// have.
fn joined(d: Entry, e: Entry) -> Words
    requires { (d.length + e.length < 2 ^ 32) × (d.permissions < 8) }
    ensures { entry_of (words_number result) ≡ merged_of d e 0 }
{
    let length = d.length + e.length;
    let permissions = d.permissions & e.permissions;
    issued_direct(d.base, length, d.user, permissions, d.lockable)
}

// All places but 11.
fn check_merge(s: StateWords, table: &[u8], memory: u64, request: Merge) -> Result<Pair, Refusal>
    ensures { Pairs request.first request.second result (front_on memory (state_as s) table.now (merge_as request) []) }
{
    let a = Token::from(request.first);
    let b = Token::from(request.second);
    if !(settings(memory, s, table)
        & (request.task < 1 << 55)
        & (request.encoding <= 3)
        & (a.named.offset == 0)
        & (b.named.offset == 0))
    {
        return Err(Refusal::Request);
    }
    reach_open(table, memory, a, request.task)?;
    reach_open(table, memory, b, request.task)?;
    let first = a.named.number as usize;
    let second = b.named.number as usize;
    neighbours(entry_at(table, first), entry_at(table, second))?;
    Ok(Pair { first, second })
}

// The first is issued anew over both, if a nonce is left for it, and the second is freed.
fn grant_merge(
    s: &mut StateWords,
    table: &mut [u8],
    memory: u64,
    pair: Pair,
    request: Merge,
) -> Result<Granted, Refusal>
    requires { Pairs request.first request.second (Ok pair) (front_on memory (state_as s.old) table.old (merge_as request) []) }
    ensures { handed s.new table.new result ≡ ruled (ended (state_as s.old) table.old (grant memory table.old (merge_as request) [])) }
{
    let n = pair.first;
    let d = entry_at(table, n);
    let whole = joined(d, entry_at(table, pair.second));
    let found = find_anew(*s, n, whole, d.tag).ok_or(Refusal::Nonces)?;
    let new = reissue(s, table, n, whole, found, request.encoding);
    s.total = vacate(s.total, table, pair.second);
    Ok(giving(new))
}

// Two neighbours in order become one segment under the first's number.
pub fn merge(
    s: &mut StateWords,
    table: &mut [u8],
    memory: &[u8],
    request: Merge,
) -> Result<Granted, Refusal>
    ensures { ServedAlone (merge_as request) s.old table.old memory.now s.new table.new memory.now result }
{
    let bytes = memory.len() as u64;
    let pair = check_merge(*s, table, bytes, request)?;
    grant_merge(s, table, bytes, pair, request)
}

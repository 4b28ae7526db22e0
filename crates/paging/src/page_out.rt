// Paging out: a segment's bytes go to a buffer, its entry keeps what it was under a page-file number,
// and the zeroed segment becomes a new entry.
ghost use Rattle.std.specs.Prelude.{◌≡◌, List, ℕ, Ok, ◌+◌, ◌≤◌, drop, length, replicate, take};
ghost use Rattle.std.proofs.lemmas.List.Edits.{sets};
ghost use Rattle.machine.specs.Operations.{grant, named_entry};
ghost use Rattle.machine.specs.Requests as machine;
ghost use Rattle.machine.specs.Steps.{buffer_after, memory_after};
ghost use Rattle.table.specs.States.{state_as};
ghost use Rattle.rulings.specs.Allotments.{Allots, Limits};
ghost use Rattle.rulings.specs.Asked.{page_out_as};
ghost use Rattle.rulings.specs.Rulings.{ended, front_on, handed, inner_on, ruled};
ghost use Rattle.rulings.specs.Served.{Served};
ghost use Rattle.paging.specs.Kinds.{page_out_with};

use bits::slice::{clear_from, copy_long};
use checks::reach::reach_open;
use checks::refusal::Refusal;
use checks::settings::settings;
use entering::nonces::find_two;
use issuing::writes::issue_two;
use layout::entry::{DIRECT, Entry, issued_direct, issued_paged};
use rulings::allot::allot;
use rulings::reply::{Granted, giving_two};
use rulings::request::PageOut;
use table::entries::entry_at;
use table::state::StateWords;
use tokens::read::Token;

// Places 6 to 10 for the entry e and a buffer of so many bytes, whatever token names it.
fn check_idle(s: StateWords, table: &[u8], e: Entry, bytes: u64) -> Result<usize, Refusal>
    requires { Limits (state_as s) table.now }
    ensures { (m k u f c : ℕ) (b : List ℕ) → e ≡ named_entry table.now k → bytes ≡ length b → Allots (state_as s) table.now result (inner_on m (state_as s) table.now (machine.page_out k u f c) b) }
{
    if e.kind != DIRECT {
        return Err(Refusal::Kind);
    }
    if bytes != (e.length as u64) {
        return Err(Refusal::Bounds);
    }
    if !(!e.locked & (e.count == 0)) {
        return Err(Refusal::Standing);
    }
    allot(s, table)
}

// All places but 11, and the new number.
fn check_out(
    s: StateWords,
    table: &[u8],
    memory: u64,
    buffer: &[u8],
    token: Token,
    request: PageOut,
) -> Result<usize, Refusal>
    ensures { Allots (state_as s) table.now result (front_on memory (state_as s) table.now (page_out_with token request) buffer.now) }
{
    let named = token.named;
    if !(settings(memory, s, table)
        & (request.task < 1 << 55)
        & (request.encoding <= 3)
        & (named.offset == 0))
    {
        return Err(Refusal::Request);
    }
    reach_open(table, memory, token, request.task)?;
    let e = entry_at(table, named.number as usize);
    check_idle(s, table, e, buffer.len() as u64)
}

// So many bytes of memory, which is lent whole, go to the buffer, and become zeros.
fn carry_out(memory: &mut [u8], buffer: &mut [u8], start: usize, count: usize)
    requires { (start + count ≤ length memory.old) × (length buffer.old ≡ count) }
    ensures memory_left { memory.new ≡ sets memory.old start (replicate count 0) }
    ensures buffer_left { buffer.new ≡ take count (drop start memory.old) }
{
    let end = start + count;
    copy_long(buffer, &memory[start..end]);
    clear_from(memory, start, count);
}

// The entry is issued anew, paged out, and then the zeroed segment under the new number. The nonces
// for both are found before anything is written.
fn grant_out(
    s: &mut StateWords,
    table: &mut [u8],
    memory: &mut [u8],
    buffer: &mut [u8],
    token: Token,
    request: PageOut,
    new: usize,
) -> Result<Granted, Refusal>
    requires { Allots (state_as s.old) table.old (Ok new) (front_on (length memory.old) (state_as s.old) table.old (page_out_with token request) buffer.old) }
    ensures outcome { handed s.new table.new result ≡ ruled (ended (state_as s.old) table.old (grant (length memory.old) table.old (page_out_with token request) buffer.old)) }
    ensures memory_left { memory.new ≡ memory_after (ended (state_as s.old) table.old (grant (length memory.old) table.old (page_out_with token request) buffer.old)).effect memory.old }
    ensures buffer_left { buffer.new ≡ buffer_after (ended (state_as s.old) table.old (grant (length memory.old) table.old (page_out_with token request) buffer.old)).effect memory.old buffer.old }
{
    let n = token.named.number as usize;
    let e = entry_at(table, n);
    let paged = issued_paged(request.page, e.length, e.user, e.permissions, e.lockable);
    let fresh = issued_direct(e.base, e.length, 0, 7, true);
    let found = find_two(*s, table, n, paged, new, fresh).ok_or(Refusal::Nonces)?;
    let (first, second) = issue_two(s, table, n, paged, new, fresh, found, new, request.encoding);
    carry_out(memory, buffer, e.base as usize, e.length as usize);
    Ok(giving_two(first, second))
}

// The segment's bytes go to the buffer, which is as long; its entry is paged out, and the segment
// becomes a new one, zeroed.
pub fn page_out(
    s: &mut StateWords,
    table: &mut [u8],
    memory: &mut [u8],
    buffer: &mut [u8],
    request: PageOut,
) -> Result<Granted, Refusal>
    ensures { Served (page_out_as request) s.old table.old memory.old buffer.old s.new table.new memory.new buffer.new result }
{
    let token = Token::from(request.token);
    let new = check_out(*s, table, memory.len() as u64, buffer, token, request)?;
    grant_out(s, table, memory, buffer, token, request, new)
}

// Paging in: the buffer's bytes land in a donor's segment, and the entry that is paged out becomes
// direct there.
ghost use Rattle.std.specs.Prelude.{◌≡◌, List, ℕ, ◌+◌, ◌≤◌, ◌<◌, length};
ghost use Rattle.std.proofs.lemmas.List.Edits.{sets};
ghost use Rattle.layout.specs.Entry.{entry_of, words_number};
ghost use Rattle.machine.specs.Operations.{grant, in_of, named_entry};
ghost use Rattle.machine.specs.Parts.{State};
ghost use Rattle.machine.specs.Requests as machine;
ghost use Rattle.machine.specs.Steps.{memory_after, pass};
ghost use Rattle.table.specs.States.{state_as};
ghost use Rattle.checks.specs.Refusals.{checked_as};
ghost use Rattle.rulings.specs.Asked.{page_in_as};
ghost use Rattle.rulings.specs.Rulings.{ended, front_on, handed, inner_on, ruled, tokens_on};
ghost use Rattle.rulings.specs.Served.{Served};
ghost use Rattle.paging.specs.Kinds.{page_in_with};

use altering::writes::vacate;
use bits::slice::copy_long;
use checks::reach::reach_paged;
use checks::refusal::Refusal;
use checks::settings::settings;
use entering::nonces::find_anew;
use issuing::writes::reissue;
use layout::entry::{DIRECT, Entry, PAGED, Words, issued_direct};
use rulings::reply::{Granted, giving};
use rulings::request::PageIn;
use table::entries::entry_at;
use table::state::StateWords;
use tokens::read::Token;

// Places 2 to 5 for one token, then for the other.
fn reach_both(
    table: &[u8],
    memory: u64,
    token: Token,
    donor: Token,
    task: u64,
) -> Result<(), Refusal>
    ensures { (s : State) (c : ℕ) (b : List ℕ) → checked_as result ≡ tokens_on memory s table.now (machine.page_in token.word donor.word task c) b }
{
    reach_paged(table, memory, token, task)?;
    reach_paged(table, memory, donor, task)
}

// Places 6 to 9: the entry e must be one that is paged out and the donor d direct, unlocked at count
// 0, and both as long as the buffer, of so many bytes.
fn check_pair(e: Entry, d: Entry, bytes: u64) -> Result<(), Refusal>
    ensures { (m : ℕ) (s : State) (t : List ℕ) (j k u c : ℕ) (b : List ℕ) → e ≡ named_entry t j → d ≡ named_entry t k → bytes ≡ length b → checked_as result ≡ inner_on m s t (machine.page_in j k u c) b }
{
    if !((e.kind == PAGED) & (d.kind == DIRECT)) {
        return Err(Refusal::Kind);
    }
    if !((bytes == (e.length as u64)) & (e.length == d.length)) {
        return Err(Refusal::Bounds);
    }
    if !(!d.locked & (d.count == 0)) {
        return Err(Refusal::Standing);
    }
    Ok(())
}

// The words of the entry e as it comes in, to the donor d's segment.
fn brought(e: Entry, d: Entry) -> Words
    requires { e.permissions < 8 }
    ensures { entry_of (words_number result) ≡ in_of e d 0 }
{
    issued_direct(d.base, e.length, e.user, e.permissions, e.lockable)
}

// All places but 11.
fn check_in(
    s: StateWords,
    table: &[u8],
    memory: u64,
    buffer: &[u8],
    token: Token,
    donor: Token,
    request: PageIn,
) -> Result<(), Refusal>
    ensures { checked_as result ≡ front_on memory (state_as s) table.now (page_in_with token donor request) buffer.now }
{
    if !(settings(memory, s, table)
        & (request.task < 1 << 55)
        & (request.encoding <= 3)
        & (token.named.offset == 0)
        & (donor.named.offset == 0))
    {
        return Err(Refusal::Request);
    }
    reach_both(table, memory, token, donor, request.task)?;
    let e = entry_at(table, token.named.number as usize);
    let d = entry_at(table, donor.named.number as usize);
    check_pair(e, d, buffer.len() as u64)
}

// The buffer is stored in memory from the start on.
fn put_in(memory: &mut [u8], buffer: &[u8], start: usize)
    requires { start + length buffer.now ≤ length memory.old }
    ensures { memory.new ≡ sets memory.old start buffer.now }
{
    let end = start + buffer.len();
    copy_long(&mut memory[start..end], buffer);
}

// The entry is issued anew over the donor's segment, if a nonce is left for it, the donor is freed,
// and the bytes are stored.
fn grant_in(
    s: &mut StateWords,
    table: &mut [u8],
    memory: &mut [u8],
    buffer: &[u8],
    token: Token,
    donor: Token,
    request: PageIn,
) -> Result<Granted, Refusal>
    requires { front_on (length memory.old) (state_as s.old) table.old (page_in_with token donor request) buffer.now ≡ pass }
    ensures outcome { handed s.new table.new result ≡ ruled (ended (state_as s.old) table.old (grant (length memory.old) table.old (page_in_with token donor request) buffer.now)) }
    ensures memory_left { memory.new ≡ memory_after (ended (state_as s.old) table.old (grant (length memory.old) table.old (page_in_with token donor request) buffer.now)).effect memory.old }
{
    let n = token.named.number as usize;
    let k = donor.named.number as usize;
    let e = entry_at(table, n);
    let d = entry_at(table, k);
    let back = brought(e, d);
    let found = find_anew(*s, n, back, e.tag).ok_or(Refusal::Nonces)?;
    let new = reissue(s, table, n, back, found, request.encoding);
    s.total = vacate(s.total, table, k);
    put_in(memory, buffer, d.base as usize);
    Ok(giving(new))
}

// What was paged out comes in: the buffer's bytes land in the donor's segment, which the entry has
// from then on, and the donor is freed.
pub fn page_in(
    s: &mut StateWords,
    table: &mut [u8],
    memory: &mut [u8],
    buffer: &[u8],
    request: PageIn,
) -> Result<Granted, Refusal>
    ensures { Served (page_in_as request) s.old table.old memory.old buffer.now s.new table.new memory.new buffer.now result }
{
    let token = Token::from(request.token);
    let donor = Token::from(request.donor);
    let bytes = memory.len() as u64;
    check_in(*s, table, bytes, buffer, token, donor, request)?;
    grant_in(s, table, memory, buffer, token, donor, request)
}

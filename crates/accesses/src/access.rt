// Access: read, write and fetch, through a token, at its offset.
ghost use Rattle.std.specs.Prelude.{◌≡◌, ◌+◌, ◌*◌, ◌≤◌, eqb, drop, length, take};
ghost use Rattle.std.proofs.lemmas.List.Edits.{sets};
ghost use Rattle.tokens.specs.Permissions.{has};
ghost use Rattle.checks.specs.Holds.{settings_hold};
ghost use Rattle.checks.specs.Reached.{Near};
ghost use Rattle.checks.specs.Shifts.{closed_verdict};
ghost use Rattle.leases.specs.declared.lease.Window.TheVariants.{Open};
ghost use Rattle.checks.specs.Refusals.{stop_as};
ghost use Rattle.machine.specs.Operations.{number_of, transfer};
ghost use Rattle.machine.specs.Parts.{State};
ghost use Rattle.machine.specs.Requests as request;
ghost use Rattle.machine.specs.Steps.{buffer_after, memory_after};
ghost use Rattle.rulings.specs.Asked.{access_as, way_as};
ghost use Rattle.rulings.specs.Rulings.{verdict_on};
ghost use Rattle.rulings.specs.Served.{Served};
ghost use Rattle.accesses.specs.Transfers.{Begins, Carries, start_of, Transfers};

use bits::slice::copy;
use checks::bounds::inside;
use checks::reach::{near, reach};
use checks::refusal::Refusal;
use checks::settings::settings;
use checks::shift::shift_fits;
use leases::lease::{Window, judge_leases};
use rulings::reply::{Granted, plain};
use rulings::request::{Access, Way};
use table::entries::entry_at;
use table::state::StateWords;
use tokens::read::Token;

// The permissions have the one that an access needs.
pub fn holds(way: Way, permissions: u8) -> bool
    ensures { result ≡ eqb (has permissions (request.right_of (way_as way))) 1 }
{
    match way {
        Way::Read => permissions / 4 % 2 == 1,
        Way::Write => permissions / 2 % 2 == 1,
        Way::Fetch => permissions / 1 % 2 == 1,
    }
}

// Places 7 and 8: the right, and the bounds. Gives where in memory the access begins: at the
// segment's base and the token's offset.
fn check_transfer(table: &[u8], way: Way, token: Token, bytes: u64) -> Result<u64, Refusal>
    requires { 32 * number_of token.word + 32 ≤ length table.now }
    ensures { Transfers result table.now (way_as way) token.word bytes }
{
    let e = entry_at(table, token.named.number as usize);
    if !holds(way, e.permissions) {
        return Err(Refusal::Right);
    }
    if !inside(token.named.offset, bytes, e.length as u64) {
        return Err(Refusal::Bounds);
    }
    Ok((e.base as u64) + token.named.offset)
}

// All places but 1 and 16 where the token is open, for so many bytes. What is judged comes word by word
// from here down: as a struct it goes through memory to what is no part of its caller.
fn check_far(
    table: &[u8],
    memory: u64,
    way: Way,
    token: Token,
    task: u64,
    bytes: u64,
) -> Result<u64, Refusal>
    ensures { Carries result Open memory table.now (way_as way) token.word task bytes }
{
    reach(table, memory, token, task)?;
    check_transfer(table, way, token, bytes)
}

// The same where the token names a direct, well-formed entry: apart to the end, so that what was read
// of the entry is used again.
fn check_near(
    table: &[u8],
    memory: u64,
    way: Way,
    token: Token,
    task: u64,
    bytes: u64,
) -> Result<u64, Refusal>
    requires { Near memory table.now token.named }
    ensures { Carries result Open memory table.now (way_as way) token.word task bytes }
{
    let e = entry_at(table, token.named.number as usize);
    if e.locked & (e.holder != task) {
        return Err(Refusal::Lock);
    }
    check_transfer(table, way, token, bytes)
}

// The same, whatever the token names.
fn check_open(
    table: &[u8],
    memory: u64,
    way: Way,
    token: Token,
    task: u64,
    bytes: u64,
) -> Result<u64, Refusal>
    ensures { Carries result Open memory table.now (way_as way) token.word task bytes }
{
    if near(table, memory, token.named) {
        check_near(table, memory, way, token, task, bytes)
    } else {
        check_far(table, memory, way, token, task, bytes)
    }
}

// Places 2 to 5 and 15 where the token is closed.
pub fn check_closed(table: &[u8], memory: u64, token: Token, task: u64) -> Refusal
    ensures { stop_as result ≡ closed_verdict memory table.now token.word task }
{
    match reach(table, memory, token, task) {
        Err(why) => why,
        Ok(_) => Refusal::Window,
    }
}

// All places but 1, for a token that the leases leave unsound, closed or open.
fn check_token(
    window: Window,
    table: &[u8],
    memory: u64,
    way: Way,
    token: Token,
    task: u64,
    bytes: u64,
) -> Result<u64, Refusal>
    ensures { Carries result window memory table.now (way_as way) token.word task bytes }
{
    match window {
        Window::Unsound => Err(Refusal::Lease),
        Window::Closed => Err(check_closed(table, memory, token, task)),
        Window::Open => check_open(table, memory, way, token, task, bytes),
    }
}

// All places, for every state whose settings, with the sizes, are judged as told: the state's words
// themselves, handed to a function that is not inlined, go through memory, and a write is slower.
fn check_access(
    set: bool,
    table: &[u8],
    memory: u64,
    buffer: &[u8],
    leases: &[u8],
    request: Access,
) -> Result<u64, Refusal>
    ensures { (s : State) → set ≡ settings_hold memory s table.now → Begins result (verdict_on memory s table.now (access_as request leases.now) buffer.now) (start_of table.now request.token) }
{
    let bytes = buffer.len();
    if !(set
        & (request.task < 1 << 55)
        & (1 <= bytes)
        & (bytes <= 4096)
        & shift_fits(leases, request.minute))
    {
        return Err(Refusal::Request);
    }
    let token = Token::from(request.token);
    let window = judge_leases(leases, token.named.number, token.named.tag, request.minute);
    check_token(
        window,
        table,
        memory,
        request.way,
        token,
        request.task,
        bytes as u64,
    )
}

// The bytes of memory from the start on fill the buffer.
fn load(memory: &[u8], start: usize, buffer: &mut [u8])
    requires { (start + length buffer.old ≤ length memory.now) × (length buffer.old ≤ 4096) }
    ensures { buffer.new ≡ take (length buffer.old) (drop start memory.now) }
{
    let end = start + buffer.len();
    copy(buffer, &memory[start..end]);
}

// The buffer is stored in memory from the start on.
fn store(memory: &mut [u8], start: usize, buffer: &[u8])
    requires { (start + length buffer.now ≤ length memory.old) × (length buffer.now ≤ 4096) }
    ensures { memory.new ≡ sets memory.old start buffer.now }
{
    let end = start + buffer.len();
    copy(&mut memory[start..end], buffer);
}

// The bytes go the way of the access.
fn carry(way: Way, memory: &mut [u8], start: usize, buffer: &mut [u8])
    requires { (start + length buffer.old ≤ length memory.old) × (length buffer.old ≤ 4096) }
    ensures memory_left { memory.new ≡ memory_after (transfer (way_as way) start buffer.old) memory.old }
    ensures buffer_left { buffer.new ≡ buffer_after (transfer (way_as way) start buffer.old) memory.old buffer.old }
{
    match way {
        Way::Read | Way::Fetch => load(memory, start, buffer),
        Way::Write => store(memory, start, buffer),
    }
}

// An access by any way: the bytes at the token's offset in the segment go to the buffer, with R or X, or
// the buffer goes there, with W.
pub fn access(
    s: StateWords,
    table: &[u8],
    memory: &mut [u8],
    buffer: &mut [u8],
    leases: &[u8],
    request: Access,
) -> Result<Granted, Refusal>
    ensures { Served (access_as request leases.now) s table.now memory.old buffer.old s table.now memory.new buffer.new result }
{
    let bytes = memory.len() as u64;
    let set = settings(bytes, s, table);
    let start = check_access(set, table, bytes, buffer, leases, request)?;
    carry(request.way, memory, start as usize, buffer);
    Ok(plain(0))
}

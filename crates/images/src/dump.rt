// Dump: a segment is written as a text of Intel HEX.
ghost use Rattle.std.specs.Prelude.{◌≡◌, List, ℕ, ◌+◌, ◌*◌, ◌≤◌, ◌&&◌, leb, drop, length, take};
ghost use Rattle.std.proofs.lemmas.List.Edits.{sets};
ghost use Rattle.hexfile.specs.Written.{written, written_length};
ghost use Rattle.checks.specs.Holds.{settings_hold};
ghost use Rattle.checks.specs.Shifts.{shift_as};
ghost use Rattle.machine.specs.Operations.{named_entry, number_of};
ghost use Rattle.machine.specs.Parts.{State};
ghost use Rattle.machine.specs.Requests as asked;
ghost use Rattle.rulings.specs.Rulings.{verdict_on};
ghost use Rattle.rulings.specs.Served.{Served};
ghost use Rattle.images.specs.Segments.{DumpRest, DumpToken, Lies, telling};

use crate::segment::{Segment, reach_segment};
use accesses::access::holds;
use checks::refusal::Refusal;
use checks::settings::settings;
use checks::shift::shift_fits;
use hexwrite::write_text;
use leases::lease::{Window, judge_leases};
use rulings::request::{ImageAccess, Way};
use table::entries::entry_at;
use table::state::StateWords;
use tokens::read::Token;

// The most bytes whose text has at most 65,536 bytes.
const MOST_BYTES: usize = 23820;

// The length of the text of so many bytes.
fn text_length(bytes: usize) -> usize
    requires { bytes ≤ 23820 }
    ensures { (result ≡ written_length bytes) × (result ≤ 65536) }
{
    28 + 2 * bytes + 12 * bytes.div_ceil(16)
}

// Whether the text of so many bytes has its room: place 14.
fn fits(bytes: usize, room: usize) -> bool
    ensures { result ≡ (leb (written_length bytes) 65536 && leb (written_length bytes) room) }
{
    bytes <= MOST_BYTES && text_length(bytes) <= room
}

// Place 7: R.
fn dump_rest(table: &[u8], token: Token) -> Result<Segment, Refusal>
    requires { 32 * number_of token.word + 32 ≤ length table.now }
    ensures { DumpRest result table.now token.word }
{
    let e = entry_at(table, token.named.number as usize);
    if !holds(Way::Read, e.permissions) {
        return Err(Refusal::Right);
    }
    Ok(Segment::from(e))
}

// All places but 1 and 14.
fn dump_token(
    window: Window,
    table: &[u8],
    memory: u64,
    token: Token,
    task: u64,
) -> Result<Segment, Refusal>
    ensures { DumpToken result window memory table.now token.word task }
{
    reach_segment(window, table, memory, token, task)?;
    dump_rest(table, token)
}

// All places but 14, for every state whose settings, with the sizes, are judged as told, as in an
// access.
fn check_dump(
    set: bool,
    table: &[u8],
    memory: u64,
    leases: &[u8],
    request: ImageAccess,
) -> Result<Segment, Refusal>
    ensures { (s : State) (b : List ℕ) → set ≡ settings_hold memory s table.now → Lies result (verdict_on memory s table.now (asked.dump request.token request.task (shift_as request.minute leases.now)) b) (named_entry table.now request.token) }
{
    let token = Token::from(request.token);
    if !(set
        & (request.task < 1 << 55)
        & (token.named.offset == 0)
        & shift_fits(leases, request.minute))
    {
        return Err(Refusal::Request);
    }
    let window = judge_leases(leases, token.named.number, token.named.tag, request.minute);
    dump_token(window, table, memory, token, request.task)
}

// The text of a segment goes to the front of the buffer, in which it has room.
fn write_image(memory: &[u8], segment: Segment, buffer: &mut [u8])
    requires { (segment.base + segment.length ≤ length memory.now) × ((segment.length ≤ 65536) × (written_length segment.length ≤ length buffer.old)) }
    ensures { buffer.new ≡ sets buffer.old 0 (written (take segment.length (drop segment.base memory.now))) }
{
    let end = segment.base + segment.length;
    write_text(buffer, &memory[segment.base..end]);
}

// The segment's text goes to the front of the buffer, if it has its room there: place 14. Gives its
// length.
pub(crate) fn dump_image(
    s: StateWords,
    table: &[u8],
    memory: &[u8],
    buffer: &mut [u8],
    leases: &[u8],
    request: ImageAccess,
) -> Result<u64, Refusal>
    ensures { Served (asked.dump request.token request.task (shift_as request.minute leases.now)) s table.now memory.now buffer.old s table.now memory.now buffer.new (telling result) }
{
    let bytes = memory.len() as u64;
    let set = settings(bytes, s, table);
    let segment = check_dump(set, table, bytes, leases, request)?;
    if !fits(segment.length, buffer.len()) {
        return Err(Refusal::Room);
    }
    write_image(memory, segment, buffer);
    Ok(text_length(segment.length) as u64)
}

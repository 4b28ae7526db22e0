// Load: a text of Intel HEX is read into a segment.
ghost use Rattle.std.specs.Prelude.{◌≡◌, ◌+◌, ◌*◌, ◌≤◌, length};
ghost use Rattle.hexfile.specs.Text.{said};
ghost use Rattle.hexread.specs.Answers.{Fits};
ghost use Rattle.checks.specs.Holds.{settings_hold};
ghost use Rattle.checks.specs.Shifts.{shift_as};
ghost use Rattle.machine.specs.Images.{pieces_of};
ghost use Rattle.machine.specs.Operations.{named_entry, number_of, placed};
ghost use Rattle.machine.specs.Parts.{State};
ghost use Rattle.machine.specs.Requests as asked;
ghost use Rattle.machine.specs.Steps.{stored};
ghost use Rattle.rulings.specs.Rulings.{verdict_on};
ghost use Rattle.rulings.specs.Served.{Served};
ghost use Rattle.images.specs.Segments.{fault_as, Lies, LoadRest, LoadToken, telling};

use crate::segment::{Segment, reach_segment};
use accesses::access::holds;
use checks::refusal::Refusal;
use checks::settings::settings;
use checks::shift::shift_fits;
use hexread::record::Fault;
use hexread::store::store;
use hexread::text::judge;
use leases::lease::{Window, judge_leases};
use rulings::request::{ImageAccess, Way};
use table::entries::entry_at;
use table::state::StateWords;
use tokens::read::Token;

// Places 7 and 8: W, and data that end at so many bytes.
fn load_rest(table: &[u8], token: Token, end: usize) -> Result<Segment, Refusal>
    requires { 32 * number_of token.word + 32 ≤ length table.now }
    ensures { LoadRest result table.now token.word end }
{
    let e = entry_at(table, token.named.number as usize);
    if !holds(Way::Write, e.permissions) {
        return Err(Refusal::Right);
    }
    let segment = Segment::from(e);
    if end > segment.length {
        return Err(Refusal::Bounds);
    }
    Ok(segment)
}

// All places but 1, 12 and 13, for such data.
fn load_token(
    window: Window,
    table: &[u8],
    memory: u64,
    token: Token,
    task: u64,
    end: usize,
) -> Result<Segment, Refusal>
    ensures { LoadToken result window memory table.now token.word task end }
{
    reach_segment(window, table, memory, token, task)?;
    load_rest(table, token, end)
}

// Places 12 and 13: what is wrong with a text, as a refusal. Both types are of other crates, so that no
// From can stand here.
fn refusal(fault: Fault) -> Refusal
    ensures { result ≡ fault_as fault }
{
    match fault {
        Fault::Malformed => Refusal::Record,
        Fault::WrongSum => Refusal::Checksum,
    }
}

// All places, for every state whose settings, with the sizes, are judged as told, as in an access.
fn check_load(
    set: bool,
    table: &[u8],
    memory: u64,
    text: &[u8],
    leases: &[u8],
    request: ImageAccess,
) -> Result<Segment, Refusal>
    ensures { (s : State) → set ≡ settings_hold memory s table.now → Lies result (verdict_on memory s table.now (asked.load request.token request.task (shift_as request.minute leases.now)) text.now) (named_entry table.now request.token) }
{
    let token = Token::from(request.token);
    if !(set
        & (request.task < 1 << 55)
        & (token.named.offset == 0)
        & (text.len() <= 65536)
        & shift_fits(leases, request.minute))
    {
        return Err(Refusal::Request);
    }
    let end = judge(text).map_err(refusal)?;
    let window = judge_leases(leases, token.named.number, token.named.tag, request.minute);
    load_token(window, table, memory, token, request.task, end)
}

// The text's data are stored in a segment, in which they lie.
fn store_image(memory: &mut [u8], segment: Segment, text: &[u8])
    requires segment_in_bounds { segment.base + segment.length ≤ length memory.old }
    requires fits { Fits (said text.now) segment.length }
    ensures { memory.new ≡ stored (placed segment.base (pieces_of text.now)) memory.old }
{
    let end = segment.base + segment.length;
    store(text, &mut memory[segment.base..end]);
}

// The text is judged as a whole, and then its data go to the segment. Nothing goes to the buffer.
pub(crate) fn load_image(
    s: StateWords,
    table: &[u8],
    memory: &mut [u8],
    text: &[u8],
    leases: &[u8],
    request: ImageAccess,
) -> Result<u64, Refusal>
    ensures { Served (asked.load request.token request.task (shift_as request.minute leases.now)) s table.now memory.old text.now s table.now memory.new text.now (telling result) }
{
    let bytes = memory.len() as u64;
    let set = settings(bytes, s, table);
    let segment = check_load(set, table, bytes, text, leases, request)?;
    store_image(memory, segment, text);
    Ok(0)
}

// The segment that a load or a dump is of.
ghost use Rattle.std.specs.Prelude.{◌≡◌, [], length};
ghost use Rattle.checks.specs.Reached.{Reaches};
ghost use Rattle.checks.specs.Shifts.{judged_for, shift_verdict};
ghost use Rattle.machine.specs.Line.{line_of};
ghost use Rattle.machine.specs.Operations.{number_of};
ghost use Rattle.machine.specs.Requests.{Shift};
ghost use Rattle.images.specs.Segments.{There};

use accesses::access::check_closed;
use checks::reach::reach_open;
use checks::refusal::Refusal;
use layout::entry::Entry;
use leases::lease::Window;
use tokens::read::Token;

// Where a segment lies in memory.
#[derive(Clone, Copy)]
pub struct Segment {
    pub base: usize,
    pub length: usize,
}

// An entry's segment.
impl From<Entry> for Segment {
    ghost from_gives = { λ e segment. (segment.base ≡ e.base) × (segment.length ≡ e.length) };

    fn from(e: Entry) -> Segment {
        Segment {
            base: e.base as usize,
            length: e.length as usize,
        }
    }
}

// 16, places 2 to 5 and 15 of a token for which the leases come to so much, quick where it names a
// direct entry.
pub(crate) fn reach_segment(
    window: Window,
    table: &[u8],
    memory: u64,
    token: Token,
    task: u64,
) -> Result<usize, Refusal>
    ensures reaches { (φ : Shift) → window ≡ judged_for φ token.word → Reaches table.now result (shift_verdict [] memory table.now token.word task φ) (line_of memory table.now (number_of token.word)) }
    ensures there { There result table.now token.word }
{
    match window {
        Window::Unsound => Err(Refusal::Lease),
        Window::Closed => Err(check_closed(table, memory, token, task)),
        Window::Open => reach_open(table, memory, token, task),
    }
}

// Paging out and in as `serve` calls them: functions of their own, so that no other request pays for
// them.
ghost use Rattle.machine.specs.Requests as asking;
ghost use Rattle.rulings.specs.Asked.{page_in_as, page_out_as};
ghost use Rattle.rulings.specs.Served.{Served};

use crate::page_in::page_in;
use crate::page_out::page_out;
use checks::refusal::Refusal;
use rulings::reply::Granted;
use rulings::request::{PageIn, PageOut};
use table::state::StateWords;

// Paging out, its words one by one: as a struct they would go through memory, for whatever request.
#[inline(never)]
fn out_apart(
    s: &mut StateWords,
    table: &mut [u8],
    memory: &mut [u8],
    buffer: &mut [u8],
    token: u64,
    task: u64,
    page: u64,
    encoding: u64,
) -> Result<Granted, Refusal>
    ensures { Served (asking.page_out token task page encoding) s.old table.old memory.old buffer.old s.new table.new memory.new buffer.new result }
{
    let request = PageOut {
        token,
        task,
        page,
        encoding,
    };
    page_out(s, table, memory, buffer, request)
}

// Paging in, likewise.
#[inline(never)]
fn in_apart(
    s: &mut StateWords,
    table: &mut [u8],
    memory: &mut [u8],
    buffer: &mut [u8],
    token: u64,
    donor: u64,
    task: u64,
    encoding: u64,
) -> Result<Granted, Refusal>
    ensures { Served (asking.page_in token donor task encoding) s.old table.old memory.old buffer.old s.new table.new memory.new buffer.new result }
{
    let request = PageIn {
        token,
        donor,
        task,
        encoding,
    };
    page_in(s, table, memory, buffer, request)
}

// A segment goes out to the buffer. The state is lent on as a copy, so that for other requests it need not
// be in memory.
pub fn serve_out(
    s: &mut StateWords,
    table: &mut [u8],
    memory: &mut [u8],
    buffer: &mut [u8],
    request: PageOut,
) -> Result<Granted, Refusal>
    ensures { Served (page_out_as request) s.old table.old memory.old buffer.old s.new table.new memory.new buffer.new result }
{
    let q = request;
    let mut words = *s;
    let reply = out_apart(
        &mut words, table, memory, buffer, q.token, q.task, q.page, q.encoding,
    );
    *s = words;
    reply
}

// The buffer's bytes come in, likewise.
pub fn serve_in(
    s: &mut StateWords,
    table: &mut [u8],
    memory: &mut [u8],
    buffer: &mut [u8],
    request: PageIn,
) -> Result<Granted, Refusal>
    ensures { Served (page_in_as request) s.old table.old memory.old buffer.old s.new table.new memory.new buffer.new result }
{
    let q = request;
    let mut words = *s;
    let reply = in_apart(
        &mut words, table, memory, buffer, q.token, q.donor, q.task, q.encoding,
    );
    *s = words;
    reply
}

// Any request, served: one step of the machine.
ghost use Rattle.std.specs.Prelude.{◌≡◌};
ghost use Rattle.rulings.specs.Asked.{request_as};
ghost use Rattle.rulings.specs.Served.{Served};

use accesses::access::access;
use checks::refusal::Refusal;
use drops::drop::drop;
use images::image::serve_image;
use locks::lock::{lock, unlock};
use merges::merge::merge;
use paging::page::{serve_in, serve_out};
use references::clone::clone;
use references::derive::derive;
use references::execute_only::execute_only;
use rulings::reply::Granted;
use rulings::request::Request;
use segments::create::create;
use segments::reset::reset;
use segments::revoke::revoke;
use table::state::StateWords;

// Serves any request, by its own operation: what it hands back, and what table, memory and buffer then hold, is one step of
// the machine and its answer.
pub fn serve(
    s: &mut StateWords,
    request: Request,
    table: &mut [u8],
    memory: &mut [u8],
    buffer: &mut [u8],
    leases: &[u8],
) -> Result<Granted, Refusal>
    ensures { Served (request_as request leases.now) s.old table.old memory.old buffer.old s.new table.new memory.new buffer.new result }
{
    match request {
        Request::Reset(request) => reset(s, table, memory, request),
        Request::Access(request) => access(*s, table, memory, buffer, leases, request),
        Request::Image(request) => serve_image(*s, table, memory, buffer, leases, request),
        Request::Create(request) => create(s, table, memory, request),
        Request::Merge(request) => merge(s, table, memory, request),
        Request::Derive(request) => derive(s, table, memory, request),
        Request::ExecuteOnly { token, encoding } => execute_only(s, table, memory, token, encoding),
        Request::Clone { token } => clone(*s, table, memory, token),
        Request::Drop { token } => drop(s, table, memory, token),
        Request::Lock { token, task } => lock(*s, table, memory, token, task),
        Request::Unlock { token, task } => unlock(*s, table, memory, token, task),
        Request::Revoke { token, encoding } => revoke(s, table, memory, token, encoding),
        Request::PageOut(request) => serve_out(s, table, memory, buffer, request),
        Request::PageIn(request) => serve_in(s, table, memory, buffer, request),
    }
}

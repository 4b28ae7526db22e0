// A load and a dump as one function of its own: what it keeps on the stack is not asked of other requests,
// and what it hands back is small.
ghost use Rattle.std.specs.Prelude.{◌≡◌};
ghost use Rattle.rulings.specs.Asked.{image_access_as};
ghost use Rattle.rulings.specs.Served.{Served};
ghost use Rattle.images.specs.Segments.{telling};

use crate::dump::dump_image;
use crate::load::load_image;
use checks::refusal::Refusal;
use rulings::reply::{Granted, filling};
use rulings::request::{Image, ImageAccess};
use table::state::StateWords;

// What both do. Gives how many bytes the answer has at the buffer's front.
#[inline(never)]
fn image(
    s: StateWords,
    table: &[u8],
    memory: &mut [u8],
    buffer: &mut [u8],
    leases: &[u8],
    request: ImageAccess,
) -> Result<u64, Refusal>
    ensures { Served (image_access_as request leases.now) s table.now memory.old buffer.old s table.now memory.new buffer.new (telling result) }
{
    match request.kind {
        Image::Load => load_image(s, table, memory, buffer, leases, request),
        Image::Dump => dump_image(s, table, memory, buffer, leases, request),
    }
}

// A load or a dump, with the buffer that it brings.
pub fn serve_image(
    s: StateWords,
    table: &[u8],
    memory: &mut [u8],
    buffer: &mut [u8],
    leases: &[u8],
    request: ImageAccess,
) -> Result<Granted, Refusal>
    ensures { Served (image_access_as request leases.now) s table.now memory.old buffer.old s table.now memory.new buffer.new result }
{
    image(s, table, memory, buffer, leases, request).map(filling)
}

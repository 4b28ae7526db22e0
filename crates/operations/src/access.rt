// Accesses: bytes that are read, written or fetched, a load and a dump.
ghost use Rattle.rulings.specs.Asked.{access_as, image_access_as};
ghost use Rattle.rulings.specs.Served.{Served};

use crate::state::{Outcome, State};
use accesses::access::access;
use images::image::serve_image;
use rulings::request::{Access, ImageAccess};

impl State {
    // The bytes move between the buffer and the segment, at the token's offset.
    pub fn access(
        mut self,
        table: &[u8],
        memory: &mut [u8],
        buffer: &mut [u8],
        leases: &[u8],
        request: Access,
    ) -> Outcome
        ensures { Served (access_as request leases.now) self.words table.now memory.old buffer.old result.state.words table.now memory.new buffer.new result.reply }
    {
        let reply = access(self.words, table, memory, buffer, leases, request);
        Outcome { state: self, reply }
    }

    // The buffer is the text that is read into the segment, or has the segment's text at its front.
    pub fn image(
        mut self,
        table: &[u8],
        memory: &mut [u8],
        buffer: &mut [u8],
        leases: &[u8],
        request: ImageAccess,
    ) -> Outcome
        ensures { Served (image_access_as request leases.now) self.words table.now memory.old buffer.old result.state.words table.now memory.new buffer.new result.reply }
    {
        let reply = serve_image(self.words, table, memory, buffer, leases, request);
        Outcome { state: self, reply }
    }
}

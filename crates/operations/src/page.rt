// Paging: a segment goes out to a buffer of its length, and comes in to a donor's.
ghost use Rattle.rulings.specs.Asked.{page_in_as, page_out_as};
ghost use Rattle.rulings.specs.Served.{Served};

use crate::state::{Outcome, State};
use paging::page_in::page_in;
use paging::page_out::page_out;
use rulings::request::{PageIn, PageOut};

impl State {
    // The segment's bytes go to the buffer, and its entry is paged out under a page-file number. The
    // zeroed segment is a new one: two tokens, the entry's and the new one's.
    pub fn page_out(
        mut self,
        table: &mut [u8],
        memory: &mut [u8],
        buffer: &mut [u8],
        request: PageOut,
    ) -> Outcome
        ensures { Served (page_out_as request) self.words table.old memory.old buffer.old result.state.words table.new memory.new buffer.new result.reply }
    {
        let reply = page_out(&mut self.words, table, memory, buffer, request);
        Outcome { state: self, reply }
    }

    // What was paged out comes in from the buffer, to the donor's segment; the donor is freed.
    pub fn page_in(
        mut self,
        table: &mut [u8],
        memory: &mut [u8],
        buffer: &[u8],
        request: PageIn,
    ) -> Outcome
        ensures { Served (page_in_as request) self.words table.old memory.old buffer.now result.state.words table.new memory.new buffer.now result.reply }
    {
        let reply = page_in(&mut self.words, table, memory, buffer, request);
        Outcome { state: self, reply }
    }
}

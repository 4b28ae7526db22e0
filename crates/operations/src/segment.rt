// Whole segments: reset, create, merge, revoke.
ghost use Rattle.machine.specs.Requests as request;
ghost use Rattle.rulings.specs.Asked.{create_as, merge_as, reset_as};
ghost use Rattle.rulings.specs.Served.{ServedAlone};

use crate::state::{Outcome, State};
use merges::merge::merge;
use rulings::request::{Create, Merge, Reset};
use segments::create::create;
use segments::reset::reset;
use segments::revoke::revoke;

impl State {
    // Writes the root entry, makes all other entries zeros, and starts from the key and nonce.
    pub fn reset(mut self, table: &mut [u8], memory: &[u8], request: Reset) -> Outcome
        ensures { ServedAlone (reset_as request) self.words table.old memory.now result.state.words table.new memory.now result.reply }
    {
        let reply = reset(&mut self.words, table, memory, request);
        Outcome { state: self, reply }
    }

    // A front part of the segment as a segment of its own, with a user and permissions, and the
    // rest. Without a rest there is one token.
    pub fn create(mut self, table: &mut [u8], memory: &[u8], request: Create) -> Outcome
        ensures { ServedAlone (create_as request) self.words table.old memory.now result.state.words table.new memory.now result.reply }
    {
        let reply = create(&mut self.words, table, memory, request);
        Outcome { state: self, reply }
    }

    // Two neighbours in order become one segment under the first's number.
    pub fn merge(mut self, table: &mut [u8], memory: &[u8], request: Merge) -> Outcome
        ensures { ServedAlone (merge_as request) self.words table.old memory.now result.state.words table.new memory.now result.reply }
    {
        let reply = merge(&mut self.words, table, memory, request);
        Outcome { state: self, reply }
    }

    // The segment is zeroed and issued anew, with all rights; the tag that it had names it no more.
    pub fn revoke(
        mut self,
        table: &mut [u8],
        memory: &mut [u8],
        token: u64,
        encoding: u64,
    ) -> Outcome
        ensures { ServedAlone (request.revoke token encoding) self.words table.old memory.old result.state.words table.new memory.new result.reply }
    {
        let reply = revoke(&mut self.words, table, memory, token, encoding);
        Outcome { state: self, reply }
    }
}

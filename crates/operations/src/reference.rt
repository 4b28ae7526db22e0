// References to a segment: derive, execute-only, clone, drop.
ghost use Rattle.machine.specs.Requests as request;
ghost use Rattle.rulings.specs.Asked.{derive_as};
ghost use Rattle.rulings.specs.Served.{ServedAlone};

use crate::state::{Outcome, State};
use drops::drop::drop;
use references::clone::clone;
use references::derive::derive;
use references::execute_only::execute_only;
use rulings::request::Derive;

impl State {
    // A token for a part of the segment, or for all of it, with no permission that its parent has not.
    pub fn derive(mut self, table: &mut [u8], memory: &[u8], request: Derive) -> Outcome
        ensures { ServedAlone (derive_as request) self.words table.old memory.now result.state.words table.new memory.now result.reply }
    {
        let reply = derive(&mut self.words, table, memory, request);
        Outcome { state: self, reply }
    }

    // A token for the segment with X alone.
    pub fn execute_only(
        mut self,
        table: &mut [u8],
        memory: &[u8],
        token: u64,
        encoding: u64,
    ) -> Outcome
        ensures { ServedAlone (request.execute_only token encoding) self.words table.old memory.now result.state.words table.new memory.now result.reply }
    {
        let reply = execute_only(&mut self.words, table, memory, token, encoding);
        Outcome { state: self, reply }
    }

    // One more holder of the token.
    pub fn clone(mut self, table: &mut [u8], memory: &[u8], token: u64) -> Outcome
        ensures { ServedAlone (request.clone token) self.words table.old memory.now result.state.words table.new memory.now result.reply }
    {
        let reply = clone(self.words, table, memory, token);
        Outcome { state: self, reply }
    }

    // One holder of the token less.
    pub fn drop(mut self, table: &mut [u8], memory: &[u8], token: u64) -> Outcome
        ensures { ServedAlone (request.release token) self.words table.old memory.now result.state.words table.new memory.now result.reply }
    {
        let reply = drop(&mut self.words, table, memory, token);
        Outcome { state: self, reply }
    }
}

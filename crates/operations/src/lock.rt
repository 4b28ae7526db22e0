// The lock of a line.
ghost use Rattle.machine.specs.Requests as request;
ghost use Rattle.rulings.specs.Served.{ServedAlone};

use crate::state::{Outcome, State};
use locks::lock::{lock, unlock};

impl State {
    // The line is locked for the task.
    pub fn lock(mut self, table: &mut [u8], memory: &[u8], token: u64, task: u64) -> Outcome
        ensures { ServedAlone (request.lock token task) self.words table.old memory.now result.state.words table.new memory.now result.reply }
    {
        let reply = lock(self.words, table, memory, token, task);
        Outcome { state: self, reply }
    }

    // The line is unlocked, by the task that holds its lock.
    pub fn unlock(mut self, table: &mut [u8], memory: &[u8], token: u64, task: u64) -> Outcome
        ensures { ServedAlone (request.unlock token task) self.words table.old memory.now result.state.words table.new memory.now result.reply }
    {
        let reply = unlock(self.words, table, memory, token, task);
        Outcome { state: self, reply }
    }
}

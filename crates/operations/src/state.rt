// The state, what an operation hands back, and the total of free numbers that the state keeps.
ghost use Rattle.std.specs.Prelude.{◌≡◌};
ghost use Rattle.table.specs.States.{state_as};

use checks::refusal::Refusal;
use rulings::reply::Granted;
use table::state::StateWords;

// The state, whose methods are the operations. Each takes it by value and hands it back beside the reply.
#[derive(Clone, Copy)]
pub struct State {
    pub words: StateWords,
}

// The state beside the reply. A refusal hands the state back as it was.
#[derive(Clone, Copy)]
pub struct Outcome {
    pub state: State,
    pub reply: Result<Granted, Refusal>,
}

impl State {
    // How many numbers are free, without number 0: the state's own word. Asking is no request, and
    // looks at no table.
    pub fn free_total(self) -> u64
        ensures { result ≡ (state_as self.words).total }
    {
        self.words.total
    }
}

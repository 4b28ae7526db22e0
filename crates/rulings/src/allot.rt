// A new number for what is issued: place 10.
ghost use Rattle.table.specs.States.{state_as};
ghost use Rattle.rulings.specs.Allotments.{Allots, allot_verdict, Limits};

use checks::refusal::Refusal;
use numbers::numbers::new_number;
use table::state::StateWords;

// The new number. `Limits` is asked of the state beside the table: a type of both would hold the loan of the
// table, which the grant then writes.
pub fn allot(s: StateWords, table: &[u8]) -> Result<usize, Refusal>
    requires { Limits (state_as s) table.now }
    ensures { Allots (state_as s) table.now result (allot_verdict (state_as s) table.now) }
{
    new_number(s, table).ok_or(Refusal::Numbers)
}

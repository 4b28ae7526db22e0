// A call: its request is carried out, or the call is refused as broken.
ghost use Rattle.std.specs.Prelude.{◌≡◌, true, cond, List, ℕ, length, option_copied};
ghost use Rattle.machine.specs.Steps.{Machine, step};
ghost use Rattle.table.specs.States.{state_as};
ghost use Rattle.rulings.specs.Asked.{request_as};
ghost use Rattle.rulings.specs.Served.{call_as};
ghost use Rattle.interface.specs.Exported.{answer_size, asked, carried, known, lent_fits, state_bytes, state_size, told, words_sized};
ghost use Rattle.interface.specs.Meanings.{asked_as, left, lent_as, lent_bytes};

use checks::refusal::Refusal;
use interface::answer::{ANSWER_SIZE, write_answer};
use interface::request::{REQUEST_SIZE, request_of};
use interface::state::{STATE_SIZE, read_state, write_state};
use leases::lease::fits;
use rulings::request::Request;
use serving::serve::serve;
use table::state::StateWords;

// The leases have their size, where some are lent.
fn lent_fits(leases: Option<&[u8]>) -> bool
    ensures { result ≡ lent_fits (lent_as (option_copied leases.entry)) }
{
    match leases {
        None => true,
        Some(leases) => fits(leases),
    }
}

// Request, state and answer have their sizes.
fn sized(request: &[u8], state: &[u8], answer: &[u8]) -> bool
    ensures { result ≡ words_sized request.now state.now answer.now }
{
    (request.len() == REQUEST_SIZE) & (state.len() == STATE_SIZE) & (answer.len() == ANSWER_SIZE)
}

// The request of a call, if its parts have their sizes: the leases too, where some are lent, whatever the
// request.
#[tactic(auto, unfolding(interface::specs::Exported::asked))]
pub fn asked_of(
    request: &[u8],
    state: &[u8],
    answer: &[u8],
    leases: Option<&[u8]>,
) -> Option<Request>
    ensures { asked_as result (lent_bytes (option_copied leases.entry)) ≡ asked request.now state.now answer.now (lent_as (option_copied leases.entry)) }
{
    if sized(request, state, answer) & lent_fits(leases) {
        request_of(request, leases)
    } else {
        None
    }
}

// A broken call: refusal 1, which an answer of its size tells.
#[tactic(auto, unfolding(interface::specs::Exported::told))]
pub fn refuse(answer: &mut [u8]) -> u64
    ensures { (result ≡ 1) × (answer.new ≡ told answer.old) }
{
    if answer.len() == ANSWER_SIZE {
        write_answer(answer, Err(Refusal::Request))
    } else {
        1
    }
}

// Whether the request is sure to leave the state: an access does.
fn leaves(request: Request) -> bool
    ensures { result ≡ true → (σ : Machine) (b ls : List ℕ) → (step σ (call_as (request_as request ls) b)).state ≡ σ.state }
{
    matches!(request, Request::Access(_))
}

// The state is stored, unless the request leaves it.
fn put_state(left: bool, state: &mut [u8], s: StateWords)
    requires { length state.old ≡ state_size }
    ensures { state.new ≡ cond left state.old (state_bytes (state_as s)) }
{
    if !left {
        write_state(state, s);
    }
}

// One step of the machine, from the state's bytes to the answer's.
pub fn carry_out(
    request: Request,
    state: &mut [u8],
    table: &mut [u8],
    memory: &mut [u8],
    buffer: &mut [u8],
    answer: &mut [u8],
    leases: &[u8],
) -> u64
    requires { (length state.old ≡ state_size) × (length answer.old ≡ answer_size) }
    ensures { left result state.new table.new memory.new buffer.new answer.new ≡ carried (known (request_as request leases.now)) state.old table.old memory.old buffer.old answer.old }
{
    let mut words = read_state(state);
    let reply = serve(&mut words, request, table, memory, buffer, leases);
    put_state(leaves(request), state, words);
    write_answer(answer, reply)
}

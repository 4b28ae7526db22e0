// The northbridge with leases for C and Rust: one function over seven lent slices. It is a root of its
// own, so that each of the two is compiled as one piece, and whoever calls `northbridge_serve` alone
// links nothing of this.
#![tactic(auto)]

ghost use Rattle.std.specs.Prelude.{◌≡◌};
ghost use Rattle.interface.specs.Exported as interface;
ghost use Rattle.interface.specs.Exported.{exported};
ghost use Rattle.interface.specs.Meanings.{left};

use calls::call::{asked_of, carry_out, refuse};

// Serves the request, whatever the slices hold, and returns its refusal (0 granted). Accesses are
// judged by the leases, and have their minute in word 2.
#[unsafe(no_mangle)]
pub extern "C" fn northbridge_serve_leased(
    request: &[u8],
    state: &mut [u8],
    table: &mut [u8],
    memory: &mut [u8],
    buffer: &mut [u8],
    answer: &mut [u8],
    leases: &[u8],
) -> u64
    ensures { left result state.new table.new memory.new buffer.new answer.new ≡ exported request.now state.old table.old memory.old buffer.old answer.old (interface.with_leases leases.now) }
{
    let Some(known) = asked_of(request, state, answer, Some(leases)) else {
        return refuse(answer);
    };
    carry_out(known, state, table, memory, buffer, answer, leases)
}

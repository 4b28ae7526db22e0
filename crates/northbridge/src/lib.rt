// The northbridge for C and Rust: one function over six lent slices. `leased` has the other that C calls.
#![tactic(auto)]

ghost use Rattle.std.specs.Prelude.{◌≡◌};
ghost use Rattle.interface.specs.Exported.{exported, no_leases};
ghost use Rattle.interface.specs.Meanings.{left};

use calls::call::{asked_of, carry_out, refuse};

// Serves the request, whatever the slices hold, and returns its refusal (0 granted). An access has no
// leases, and its minute is not looked at.
#[unsafe(no_mangle)]
pub extern "C" fn northbridge_serve(
    request: &[u8],
    state: &mut [u8],
    table: &mut [u8],
    memory: &mut [u8],
    buffer: &mut [u8],
    answer: &mut [u8],
) -> u64
    ensures { left result state.new table.new memory.new buffer.new answer.new ≡ exported request.now state.old table.old memory.old buffer.old answer.old no_leases }
{
    let Some(known) = asked_of(request, state, answer, None) else {
        return refuse(answer);
    };
    carry_out(known, state, table, memory, buffer, answer, &request[..0])
}

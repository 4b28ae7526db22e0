// The state as bytes: its words one after the other.
ghost use Rattle.std.specs.Prelude.{◌≡◌, length};
ghost use Rattle.table.specs.States.{state_as};
ghost use Rattle.interface.specs.Exported.{state_bytes, state_of, state_size};

use crate::words::{put_words, word_at};
use table::state::StateWords;

// In bytes.
pub const STATE_SIZE: usize = 40;

// The state that the bytes hold.
pub fn read_state(part: &[u8]) -> StateWords
    requires { length part.now ≡ state_size }
    ensures { state_as result ≡ state_of part.now }
{
    StateWords {
        key0: word_at(part, 0),
        key1: word_at(part, 1),
        last: word_at(part, 2),
        next: word_at(part, 3),
        total: word_at(part, 4),
    }
}

// The state is stored.
pub fn write_state(part: &mut [u8], s: StateWords)
    requires { length part.old ≡ state_size }
    ensures { part.new ≡ state_bytes (state_as s) }
{
    put_words(part, &[s.key0, s.key1, s.last, s.next, s.total]);
}

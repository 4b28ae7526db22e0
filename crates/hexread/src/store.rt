// The data of a text, stored.
ghost use Rattle.std.specs.Prelude.{◌≡◌, ◌+◌, ◌*◌, ◌<◌, ◌≤◌, length};
ghost use Rattle.bits.specs.Bytes.{AllBytes};
ghost use Rattle.hexfile.specs.Record.{bytes_of};
ghost use Rattle.hexfile.specs.Text.{apply, piece_at, said};
ghost use Rattle.hexread.specs.Answers.{applied, Fits};

use crate::digits::pair;
use crate::record::{Record, known_in};

// The bytes that characters make, to a part of as many.
fn store_bytes(chars: &[u8], to: &mut [u8])
    requires { (length chars.now ≡ 2 * length to.old) × AllBytes (bytes_of chars.now) }
    ensures { to.new ≡ bytes_of chars.now }
{
    for (i, byte) in to.iter_mut().enumerate() {
        *byte = pair(chars, 2 * i) as u8;
    }
}

// The same at a place in the segment, which is lent whole, since without bytes the place may lie beyond it:
// then nothing is stored.
fn store_piece(chars: &[u8], segment: &mut [u8], start: usize, count: usize)
    requires { (length chars.now ≡ 2 * count) × (AllBytes (bytes_of chars.now) × (0 < count → start + count ≤ length segment.old)) }
    ensures { segment.new ≡ apply (piece_at start count (bytes_of chars.now)) segment.old }
{
    if count == 0 {
        return;
    }
    let end = start + count;
    store_bytes(chars, &mut segment[start..end]);
}

// What a text says, in a segment in which its data lie. Its records are known to have no fault.
pub fn store(text: &[u8], segment: &mut [u8])
    requires { Fits (said text.now) (length segment.old) }
    ensures { segment.new ≡ applied (said text.now) segment.old }
{
    let mut rest = text;
    let mut page = 0;
    loop {
        match known_in(rest) {
            Record::Data { address, count } => {
                let last = 9 + 2 * count;
                store_piece(&rest[9..last], segment, 65536 * page + address, count);
                rest = &rest[last + 3..];
            }
            Record::Page(next) => {
                page = next;
                rest = &rest[16..];
            }
            Record::End => return,
        }
    }
}

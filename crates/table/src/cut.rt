// What a walk up a line needs of an entry, cut of its 32 bytes so that no byte is read twice: then
// the compiler loads each part by itself, and a parent's place is one load away.
ghost use Rattle.std.specs.Prelude.{◌≡◌, ◌+◌, ◌/◌, ◌%◌, ◌≤◌, true, length};
ghost use Rattle.bits.specs.Bytes.{number};
ghost use Rattle.layout.specs.Entry.{entry_of, words_number};
ghost use Rattle.machine.specs.Parts.{at};
ghost use Rattle.table.specs.Cuts.{Above, Bounded, cut_words, passes};

use crate::entries::part_at;
use bits::word::get;
use layout::entry::{DIRECT, INDIRECT};

// The parts in the order of their bytes, as an indirect entry has them: the first word (a); high bits
// of the parent's number (hi); 32 times the rest of it, which is the parent's place in the table, and
// below that the length's top bits (up); 32 times the rest of the length, and below that the count's
// top bits (len); more of the count (x); its last bits, and what is to be zeros (y, z); the last word
// (d).
#[derive(Clone, Copy)]
pub struct Cut {
    pub a: u64,
    pub hi: u64,
    pub up: u64,
    pub len: u64,
    pub x: u64,
    pub y: u64,
    pub z: u64,
    pub d: u64,
}

// The 32 bytes of an entry, in parts.
fn read_cut(part: &[u8; 32]) -> Cut
    ensures { Bounded result × (words_number (cut_words result) ≡ number 32 part.now) }
{
    Cut {
        a: get(&part[0..8]),
        hi: u64::from(part[8]),
        up: u64::from(u32::from_be_bytes([part[9], part[10], part[11], part[12]])),
        len: u64::from(u32::from_be_bytes([part[13], part[14], part[15], part[16]])),
        x: u64::from(part[17]),
        // The low byte first: parts that are only to be zeros need no swap.
        y: u64::from(u16::from_le_bytes([part[18], part[19]])),
        z: u64::from(u32::from_le_bytes([part[20], part[21], part[22], part[23]])),
        d: get(&part[24..32]),
    }
}

// The entry whose first byte is the given one, in parts.
pub(crate) fn cut_at(table: &[u8], byte: usize) -> Cut
    requires { (byte % 32 ≡ 0) × (byte + 32 ≤ length table.now) }
    ensures { Bounded result × (entry_of (words_number (cut_words result)) ≡ at table.now (byte / 32)) }
{
    read_cut(part_at(table, byte))
}

// The entry is indirect and well-formed, and its parent's number is in a table of so many bytes.
pub(crate) fn passes(memory: u64, room: u64, c: Cut) -> bool
    ensures { result ≡ passes memory room c }
{
    let base = (c.a >> 29) % (1 << 32);
    let length = c.len / 32;
    (c.a >> 61 == INDIRECT as u64)
        & ((c.a >> 27) % 4 == 1)
        & (c.a % (1 << 11) == 0)
        & (c.hi == 0)
        & (c.up % 32 == 0)
        & (c.y % 32 == 0)
        & (c.y / 256 == 0)
        & (c.z == 0)
        & (c.d >> 54 == 0)
        & ((c.d >> 48) % 8 == 0)
        & (length != 0)
        & (base + length <= memory)
        & (c.up < room)
}

// The entry p has the tag that c names, is older, and direct or indirect. Tag and nonce are told by
// one difference: below c's nonce only if the tags are the same; and types 1 and 2, counted from 1 on, by another.
pub(crate) fn above(p: Cut, c: Cut) -> bool
    ensures { result ≡ true → Above p c }
{
    let tag = (c.a >> 11) % (1 << 16) * (1 << 32);
    let rest = (p.d % (1 << 48)).wrapping_sub(tag);
    let from_direct = p.a.wrapping_sub((DIRECT as u64) << 61);
    (from_direct < 1 << 62) & (rest < c.d % (1 << 32))
}

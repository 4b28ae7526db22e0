// The words of a slice: 64 bits each, the low byte first.
ghost use Rattle.std.specs.Prelude.{◌≡◌, ◌+◌, ◌*◌, ◌≤◌, length};
ghost use borrow.Rule.Slice.PartMut.{put_mid};
ghost use Rattle.bits.specs.Bytes.{low_bytes};
ghost use Rattle.bits.specs.SipHash.{word};
ghost use Rattle.interface.specs.Exported.{word_bytes};

use bits::word::{get_low, put_low};

// Word i.
#[tactic(auto, unfolding(bits::specs::SipHash::word))]
pub fn word_at(part: &[u8], i: usize) -> u64
    requires { 8 * i + 8 ≤ length part.now }
    ensures { result ≡ word part.now i }
{
    let start = 8 * i;
    let end = start + 8;
    get_low(&part[start..end])
}

// Word i becomes w.
fn put_word(part: &mut [u8], i: usize, w: u64)
    requires { 8 * i + 8 ≤ length part.old }
    ensures { part.new ≡ put_mid (8 * i) 8 part.old (low_bytes 8 w) }
{
    let start = 8 * i;
    let end = start + 8;
    put_low(&mut part[start..end], w);
}

// The words one after the other, which fill the part.
#[tactic(auto, using(crate::proofs::WordLaws::one_more_lem, crate::proofs::WordLaws::all_stored), unfolding(crate::specs::Exported::word_bytes))]
pub fn put_words(part: &mut [u8], words: &[u64])
    requires { length part.old ≡ 8 * length words.now }
    ensures { part.new ≡ word_bytes words.now }
{
    for i in 0..words.len() {
        put_word(part, i, words[i]);
    }
}

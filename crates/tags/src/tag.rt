// Tags: SipHash-2-4 over an entry and its number.
ghost use Rattle.std.specs.Prelude.{◌≡◌};
ghost use Rattle.layout.specs.Entry.{dated, entry_number, entry_of, Laid, words_number};
ghost use Rattle.layout.specs.Tag.{retag, TagFor};

use bits::siphash::{compress, finish, start};
use bits::word::swapped;
use layout::entry::Words;
use layout::fields::three_fields;

// The words of the same entry with another tag and nonce. That it has a layout is asked, and no type of its
// own: words that are read need have none, and such a type would be made at an issue to be taken apart here.
#[tactic(auto, using(crate::proofs::RetagLaws::stamp_words))]
pub fn stamped(w: Words, tag: u16, nonce: u32) -> Words
    requires { Laid (entry_of (words_number w)).kind }
    ensures { words_number result ≡ entry_number (retag (dated (entry_of (words_number w)) nonce) tag) }
{
    Words {
        d: three_fields::<16, 32>(w.d >> 48, u64::from(tag), u64::from(nonce)),
        ..w
    }
}

// The tag, under a number, of the entry whose words with tag 0 are w: the low 16 bits of the hash.
// The 40 bytes are five words for SipHash, which reads the low byte of a word first; the sixth holds
// their length alone.
pub fn tag(k0: u64, k1: u64, w: Words, number: u64) -> u16
    ensures { TagFor k0 k1 w number result }
{
    let one = compress(start(k0, k1), swapped(w.a));
    let two = compress(one, swapped(w.b));
    let three = compress(two, swapped(w.c));
    let four = compress(three, swapped(w.d));
    let five = compress(four, number);
    (finish(compress(five, 40 << 56)) % 65536) as u16
}

#[derive(Clone, Copy)]
pub struct Tags {
    pub first: u16,
    pub second: u16,
}

// The tags of two entries under their numbers, word by word by turns: a processor then works on both
// hashes at once, where each step of one waits for the last. (One function for any number of entries
// would be no plainer: two loops over arrays, with what each hash has taken in as their invariants, in
// place of ten calls in a row.)
pub fn two_tags(k0: u64, k1: u64, w: Words, number: u64, v: Words, other: u64) -> Tags
    ensures { TagFor k0 k1 w number result.first × TagFor k0 k1 v other result.second }
{
    let zero = start(k0, k1);
    let w1 = compress(zero, swapped(w.a));
    let v1 = compress(zero, swapped(v.a));
    let w2 = compress(w1, swapped(w.b));
    let v2 = compress(v1, swapped(v.b));
    let w3 = compress(w2, swapped(w.c));
    let v3 = compress(v2, swapped(v.c));
    let w4 = compress(w3, swapped(w.d));
    let v4 = compress(v3, swapped(v.d));
    let w5 = compress(w4, number);
    let v5 = compress(v4, other);
    Tags {
        first: (finish(compress(w5, 40 << 56)) % 65536) as u16,
        second: (finish(compress(v5, 40 << 56)) % 65536) as u16,
    }
}

// Nonces: the one of an issue is the first from the next on that gives another tag than its entry
// last held. It is found before anything is written.
ghost use Rattle.std.specs.Prelude.{◌≡◌, cond, List, ℕ, ◌+◌, ◌*◌, ◌≤◌, ◌<◌, length};
ghost use Rattle.layout.specs.Entry.{dated, entry_of, Laid, words_number};
ghost use Rattle.machine.specs.Issuing.{last_held};
ghost use Rattle.machine.specs.Parts.{spent};
ghost use Rattle.table.specs.States.{state_as};
ghost use Rattle.entering.specs.Nonces.{Issuable, Sought, SoughtTwo};

use crate::issue::tag_under;
use layout::entry::{Words, tag_of};
use table::entries::words_at;
use table::state::StateWords;
use tags::tag::{stamped, two_tags};

// A nonce, and the tag of what is issued with it.
#[derive(Clone, Copy)]
pub struct Found {
    pub nonce: u32,
    pub tag: u16,
}

// The tag that the entry of number n last held.
fn held(table: &[u8], n: usize) -> u16
    requires { 32 * n + 32 ≤ length table.now }
    ensures { result ≡ last_held table.now n }
{
    tag_of(words_at(table, n))
}

// The first nonce from the next one on with which the entry whose words are w is issued under number n
// with another tag than the old, which its entry last held; and that tag.
pub fn find_anew(s: StateWords, n: usize, w: Words, old: u16) -> Option<Found>
    requires next_le_spent { s.next ≤ spent }
    requires laid { Laid (entry_of (words_number w)).kind }
    ensures { (t : List ℕ) → old ≡ last_held t n → Sought (state_as s) t n (entry_of (words_number w)) result }
{
    for next in s.next..1 << 32 {
        let nonce = next as u32;
        let tag = tag_under(s.key0, s.key1, n, w, nonce);
        if tag != old {
            return Some(Found { nonce, tag });
        }
    }
    None
}

// The same, by the entry that stands under the number.
pub fn find(s: StateWords, table: &[u8], n: usize, w: Words) -> Option<Found>
    requires next_le_spent { s.next ≤ spent }
    requires issuable { Issuable table.now n (entry_of (words_number w)) }
    ensures { Sought (state_as s) table.now n (entry_of (words_number w)) result }
{
    find_anew(s, n, w, held(table, n))
}

// Two of them.
#[derive(Clone, Copy)]
pub struct FoundTwo {
    pub first: Found,
    pub second: Found,
}

// The nonces that are tried next: if the part's is passed over, the one after it, and for the rest the
// one behind that; else the rest's was.
fn part_next(one: u64, passed: bool) -> u64
    requires { one < spent }
    ensures { result ≡ cond passed (one + 1) one }
{
    if passed { one + 1 } else { one }
}

fn rest_next(one: u64, two: u64, passed: bool) -> u64
    requires { (one < spent) × (two < spent) }
    ensures { result ≡ cond passed (one + 1 + 1) (two + 1) }
{
    if passed { one + 1 + 1 } else { two + 1 }
}

// The nonces for the first under number n and then, behind that, for the second under another, number
// k. Both tags are computed at once, and those of the next two nonces nearly always do.
pub fn find_two(
    s: StateWords,
    table: &[u8],
    n: usize,
    first: Words,
    k: usize,
    second: Words,
) -> Option<FoundTwo>
    requires next_le_spent { (s.next ≤ spent) × (n ≡ k → ⊥) }
    requires issuable { Issuable table.now n (entry_of (words_number first)) }
    requires issuable_2 { Issuable table.now k (entry_of (words_number second)) }
    ensures { SoughtTwo (state_as s) table.now n (entry_of (words_number first)) k (entry_of (words_number second)) result }
{
    let last = held(table, n);
    let kept = held(table, k);
    // Each nonce goes on by steps of its own, so that no range counts them.
    let mut one = s.next;
    let mut two = one + 1;
    while two < 1 << 32 {
        let a = stamped(first, 0, one as u32);
        let b = stamped(second, 0, two as u32);
        let t = two_tags(s.key0, s.key1, a, n as u64, b, k as u64);
        if (t.first != last) & (t.second != kept) {
            return Some(FoundTwo {
                first: Found {
                    nonce: one as u32,
                    tag: t.first,
                },
                second: Found {
                    nonce: two as u32,
                    tag: t.second,
                },
            });
        }
        let passed = t.first == last;
        two = rest_next(one, two, passed);
        one = part_next(one, passed);
    }
    None
}

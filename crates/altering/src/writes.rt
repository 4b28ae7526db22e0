// Writes that issue nothing: an entry freed or altered, and the root alone.
ghost use Rattle.std.specs.Prelude.{◌≡◌, [], ◌+◌, ◌*◌, ◌^◌, ◌≤◌, ◌<◌, length};
ghost use Rattle.layout.specs.Entry.{entry_of, recounted, relocked, words_number};
ghost use Rattle.machine.specs.Parts.{most_free, put};
ghost use Rattle.machine.specs.Writes as write;
ghost use Rattle.table.specs.Left.{left_as, left_by};
ghost use Rattle.table.specs.States.{state_as};

use bits::slice::clear;
use layout::entry::{Words, free_words, issued_direct, recounted, relocked, tag_of};
use table::entries::{put_words, words_at};
use table::state::StateWords;

// As many numbers but 0 as the table has.
#[tactic(auto, unfolding(machine::specs::Parts::size))]
pub fn most_free(table: &[u8]) -> u64
    requires { 32 ≤ length table.now }
    ensures { result ≡ most_free table.now }
{
    (table.len() / 32) as u64 - 1
}

// One more, number n, and not above the top; number 0 does not count.
fn one_more(total: u64, n: usize, top: u64) -> u64
    ensures { result ≡ write.one_more top n total }
{
    if n == 0 {
        return total;
    }
    if total < top { total + 1 } else { total }
}

// The entry of number n becomes a free one that keeps its tag; the total of free numbers is the
// caller's to correct.
pub fn empty(table: &mut [u8], n: usize)
    requires { 32 * n + 32 ≤ length table.old }
    ensures { table.new ≡ write.vacated table.old n }
{
    let tag = tag_of(words_at(table, n));
    put_words(table, n, free_words(tag));
}

// The entry of number n is freed. It is handed the total of free numbers, and gives the total after.
pub fn vacate(total: u64, table: &mut [u8], n: usize) -> u64
    requires { 32 * n + 32 ≤ length table.old }
    ensures value { result ≡ write.one_more (most_free table.old) n total }
    ensures table_after { table.new ≡ write.vacated table.old n }
{
    let top = most_free(table);
    empty(table, n);
    one_more(total, n, top)
}

// The entry whose words are w is stored under its number n with another count.
pub fn recount(table: &mut [u8], n: usize, w: Words, count: u16)
    requires { 32 * n + 32 ≤ length table.old }
    ensures { table.new ≡ put table.old n (recounted (entry_of (words_number w)) count) }
{
    put_words(table, n, recounted(w, count));
}

// And with another lock.
pub fn relock(table: &mut [u8], n: usize, w: Words, locked: bool, holder: u64)
    requires { (32 * n + 32 ≤ length table.old) × (holder < 2 ^ 55) }
    ensures { table.new ≡ put table.old n (relocked (entry_of (words_number w)) locked holder) }
{
    put_words(table, n, relocked(w, locked, holder));
}

// The root over all of memory, of so many bytes, and zeros for all other entries. The state is
// replaced: every number but 0 is free.
pub fn begin(
    s: &mut StateWords,
    table: &mut [u8],
    memory: u64,
    key0: u64,
    key1: u64,
    first_nonce: u64,
)
    requires { (32 ≤ length table.old) × (memory < 2 ^ 32) }
    ensures { left_as s.new table.new [] ≡ left_by (write.write 0 (write.opened (state_as s.old) table.old) (write.begin memory key0 key1 first_nonce)) }
{
    let total = most_free(table);
    clear(table);
    put_words(table, 0, issued_direct(0, memory as u32, 0, 7, true));
    *s = StateWords {
        key0,
        key1,
        last: 0,
        next: first_nonce,
        total,
    };
}

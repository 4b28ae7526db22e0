// Entries by number: entry n is the 32 bytes from 32 n on, and nothing else of the table is lent.
ghost use Rattle.std.specs.Prelude.{◌≡◌, ◌+◌, ◌*◌, ◌≤◌, drop, length, take, ◌==◌};
ghost use Rattle.layout.specs.Entry.{entry_of, words_number};
ghost use Rattle.machine.specs.Parts.{at};
ghost use Rattle.table.specs.Stores.{Stored};

use layout::entry::{Entry, Words, load, read_words, write_words};

// The 32 bytes from the given one on. That they lie in the table relates two arguments, of which one
// is lent, so it stands in the contracts from here up: no type holds both.
pub(crate) fn part_at(table: &[u8], byte: usize) -> &[u8; 32]
    requires { byte + 32 ≤ length table.now }
    ensures { result.now ≡ take 32 (drop byte table.now) }
{
    let end = byte + 32;
    table[byte..end].as_array().unwrap()
}

// The entry of number n.
pub fn entry_at(table: &[u8], n: usize) -> Entry
    requires { 32 * n + 32 ≤ length table.now }
    ensures { result ≡ at table.now n }
{
    load(part_at(table, 32 * n))
}

// The entry has the tag.
pub fn has_tag(e: Entry, tag: u64) -> bool
    ensures { result ≡ (e.tag == tag) }
{
    u64::from(e.tag) == tag
}

// Its four words, for whoever needs only some of its fields.
pub fn words_at(table: &[u8], n: usize) -> Words
    requires { 32 * n + 32 ≤ length table.now }
    ensures { entry_of (words_number result) ≡ at table.now n }
{
    read_words(part_at(table, 32 * n))
}

// The words are stored under number n: it holds the entry whose words they are.
#[tactic(auto, unfolding(machine::specs::Parts::put, machine::specs::Parts::size))]
pub fn put_words(table: &mut [u8], n: usize, w: Words)
    requires { 32 * n + 32 ≤ length table.old }
    ensures { Stored table.old n w table.new }
{
    let start = 32 * n;
    let end = start + 32;
    write_words(&mut table[start..end], w);
}

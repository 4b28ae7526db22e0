// New numbers.
ghost use Rattle.std.specs.Prelude.{◌≡◌, ◌+◌, ◌*◌, ◌-◌, ◌/◌, ◌≤◌, ◌<◌, eqb, length};
ghost use Rattle.machine.specs.Issuing.{new_number};
ghost use Rattle.machine.specs.Parts.{at};
ghost use Rattle.numbers.specs.Searches.{first_free, four_taken, given, Sought};
ghost use Rattle.table.specs.States.{state_as};

use layout::entry::{FREE, kind_of};
use table::entries::words_at;
use table::state::StateWords;

// The entry of number n is free.
fn is_free(table: &[u8], n: usize) -> bool
    requires { 32 * n + 32 ≤ length table.now }
    ensures { result ≡ eqb (at table.now n).kind 0 }
{
    kind_of(words_at(table, n)) == FREE
}

// Four numbers from n on are all taken. It looks at each of them, without a branch.
#[tactic(auto, unfolding(crate::specs::Searches::four_taken))]
fn four_taken(table: &[u8], n: usize) -> bool
    requires { 32 * n + 128 ≤ length table.now }
    ensures { result ≡ four_taken table.now n }
{
    !is_free(table, n) & !is_free(table, n + 1) & !is_free(table, n + 2) & !is_free(table, n + 3)
}

// Passes over taken numbers from the start on, four by four. It hands back where it stopped, with what is
// left behind the last four: a range stepped by four would say neither.
#[tactic(auto, using(crate::proofs::SearchLaws::row_steps))]
fn skip(table: &[u8], start: usize, end: usize) -> usize
    requires { (start ≤ end) × (32 * end ≤ length table.now) }
    ensures { Sought table.now start end result }
{
    let mut n = start;
    while 4 <= end - n {
        if !four_taken(table, n) {
            return n;
        }
        n += 4;
    }
    n
}

// The first free number from the start on and before the end.
#[tactic(auto, using(crate::proofs::SearchLaws::row_steps))]
fn free_in(table: &[u8], start: usize, end: usize) -> Option<usize>
    requires { (0 < start) × ((start ≤ end) × (32 * end ≤ length table.now)) }
    ensures { result ≡ given (first_free (end - start) table.now start) }
{
    for n in skip(table, start, end)..end {
        if is_free(table, n) {
            return Some(n);
        }
    }
    None
}

// The first free number after the last one given.
#[tactic(auto, using(crate::proofs::SearchLaws::seek_ends))]
pub fn new_number(s: StateWords, table: &[u8]) -> Option<usize>
    requires { (64 ≤ length table.now) × (s.last < length table.now / 32) }
    ensures { result ≡ given (new_number (state_as s) table.now) }
{
    let last = s.last as usize;
    let later = free_in(table, last + 1, table.len() / 32);
    match later {
        Some(n) => Some(n),
        None => free_in(table, 1, last + 1),
    }
}

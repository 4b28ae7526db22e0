// A drop's climb: one from the count of an entry; an indirect one at 1 is freed, and its parent is
// dropped.
ghost use Rattle.std.specs.Prelude.{◌≡◌, ◌+◌, ◌-◌, ◌*◌, ◌/◌, ◌%◌, ◌^◌, ◌≤◌, ◌<◌, length};
ghost use Rattle.climbs.specs.Climbs.{Climbed, count_of, Packs, raised, word_of};

use altering::writes::{empty, most_free, recount, vacate};
use layout::entry::{DIRECT, INDIRECT};
use table::entries::{entry_at, words_at};
use table::line::{linked, parent_number};

// The calls that a call of `climb` may nest: so few that a processor predicts each return, and that
// the stack stays small however long the line is.
const NESTED: u64 = 7;

// What a climb came to: how many numbers were freed since the calls were NESTED, and sixteen times 0 at
// the end, or one more than the number that is to be dropped next, where the calls are used up or
// number 0, which does not count, was freed. One word, which stays in a register: as a struct of the
// two it goes through memory, and a freed link takes a fifth longer.
#[derive(Clone, Copy)]
struct Come {
    pub word: u64,
}

impl Come {
    // It has ended.
    fn ended(freed: u64) -> Come
        ensures { result.word ≡ freed }
    {
        Come { word: freed }
    }

    // It goes on with entry p.
    fn onward(freed: u64, p: usize) -> Come
        requires { (freed ≤ 8) × (p < 2 ^ 46) }
        ensures { result.word ≡ (p + 1) * 16 + freed }
    {
        Come {
            word: (p as u64 + 1) * 16 + freed,
        }
    }

    fn freed(self) -> u64
        ensures { result ≡ self.word % 16 }
    {
        self.word % 16
    }

    // The number that is to be dropped next.
    #[tactic(auto, using(crate::proofs::ClimbLaws::word_told))]
    fn next(self) -> Option<u64>
        ensures { word_of result ≡ self.word / 16 }
    {
        (self.word / 16).checked_sub(1)
    }
}

// One freed number more, but for number 0, which does not count.
fn counted(freed: u64, n: usize) -> u64
    requires { freed ≤ 7 }
    ensures { result ≡ freed + count_of n }
{
    if n == 0 { freed } else { freed + 1 }
}

// Drops entry n, and its parent if the entry is freed and the link holds. A count of 0 stays.
fn climb(table: &mut [u8], n: usize, calls: u64) -> Come
    requires n_in_bounds { 32 * n + 32 ≤ length table.old }
    requires calls_bound { calls ≤ 7 }
    ensures { Packs (7 - calls) table.old n table.new result.word }
{
    let e = entry_at(table, n);
    if e.count == 0 {
        return Come::ended(NESTED - calls);
    }
    if (2 <= e.count) | (e.kind == DIRECT) {
        recount(table, n, words_at(table, n), e.count - 1);
        return Come::ended(NESTED - calls);
    }
    let up = linked(table, e);
    empty(table, n);
    if !up {
        return Come::ended(counted(NESTED - calls, n));
    }
    let p = parent_number(e) as usize;
    if (calls == 0) | (n == 0) {
        return Come::onward(counted(NESTED - calls, n), p);
    }
    climb(table, p, calls - 1)
}

// The total with so many free numbers more, up to the top.
#[tactic(auto, unfolding(crate::specs::Climbs::raised))]
fn raise(total: u64, freed: u64, top: u64) -> u64
    ensures { result ≡ raised top freed total }
{
    if top <= total {
        return total;
    }
    if top - total < freed {
        top
    } else {
        total + freed
    }
}

// The same to its end. It is handed the total of free numbers, and gives it as it then is.
#[tactic(auto, using(crate::proofs::ClimbLaws::yet_less))]
fn climb_on(total: u64, table: &mut [u8], n: usize) -> u64
    requires { 32 * n + 32 ≤ length table.old }
    ensures { Climbed total table.old n result table.new }
{
    let top = most_free(table);
    let mut next = Some(n as u64);
    let mut kept = total;
    while let Some(p) = next {
        let come = climb(table, p as usize, NESTED);
        kept = raise(kept, come.freed(), top);
        next = come.next();
    }
    kept
}

// The same, quick where entry n is direct: it stays, so that nothing climbs.
#[tactic(auto, using(crate::proofs::ClimbLaws::stays))]
fn settle(total: u64, table: &mut [u8], n: usize) -> u64
    requires { 32 * n + 32 ≤ length table.old }
    ensures { Climbed total table.old n result table.new }
{
    let e = entry_at(table, n);
    if (e.kind == DIRECT) & (e.count != 0) {
        recount(table, n, words_at(table, n), e.count - 1);
        total
    } else {
        climb_on(total, table, n)
    }
}

// The same, quick also where entry n is freed and its parent is direct. The quick way of `settle` stands
// here again, so that the entry is read once for both.
#[tactic(auto, using(crate::proofs::ClimbLaws::stays))]
pub fn fall(total: u64, table: &mut [u8], n: usize) -> u64
    requires { 32 * n + 32 ≤ length table.old }
    ensures { Climbed total table.old n result table.new }
{
    let e = entry_at(table, n);
    if (e.kind == DIRECT) & (e.count != 0) {
        recount(table, n, words_at(table, n), e.count - 1);
        return total;
    }
    if (e.kind == INDIRECT) & (e.count == 1) & linked(table, e) {
        let p = parent_number(e) as usize;
        let freed = vacate(total, table, n);
        settle(freed, table, p)
    } else {
        climb_on(total, table, n)
    }
}

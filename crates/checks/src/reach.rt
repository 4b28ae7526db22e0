// The entry that a token names, its line and its lock: places 2 to 5, and 17 behind place 2.
ghost use Rattle.std.specs.Prelude.{◌≡◌, cond, true, ℕ, ◌+◌, ◌*◌, ◌≤◌, eqb, length, Ok};
ghost use Rattle.machine.specs.Line as line;
ghost use Rattle.machine.specs.Operations.{number_of};
ghost use Rattle.checks.specs.Holds.{Names, ReadAs};
ghost use Rattle.checks.specs.Reached.{formed_verdict, Forms, live_verdict, Near, page_verdict, Reaches, reach_verdict};
ghost use Rattle.checks.specs.Refusals.{bad_as, checked_as};

use crate::refusal::{Bad, Refusal};
use forms::form::ill_formed;
use layout::entry::{DIRECT, FREE, kind_of};
use table::entries::{entry_at, has_tag, words_at};
use table::line::{Broken, is_paged, walk};
use tokens::read::Token;
use tokens::token::Named;

// Place 2: the number is in the table, its entry is not free and has the tag.
fn entry_named(table: &[u8], number: u64, tag: u64) -> bool
    ensures names { Names result table.now number tag }
    ensures number_in_bounds { result ≡ true → 32 * number + 32 ≤ length table.now }
{
    if number >= (table.len() / 32) as u64 {
        return false;
    }
    let e = entry_at(table, number as usize);
    (e.kind != FREE) & has_tag(e, tag)
}

// Whether the bad entry k of the line of entry n is n itself.
fn bad(n: usize, k: usize) -> Bad
    ensures { bad_as result ≡ cond (eqb k n) line.itself line.ancestor }
{
    if k == n { Bad::Named } else { Bad::Ancestor }
}

// Places 2 to 4 for every token that is read as the number and the tag, and 17 behind place 2. Gives the
// number of the owner of its line. A `Token` would go through memory to this function, and a walk of one link
// take a tenth longer.
fn reach_live(table: &[u8], memory: u64, number: u64, tag: u64) -> Result<usize, Refusal>
    ensures { (k : ℕ) → ReadAs k number tag → Reaches table.now result (live_verdict memory table.now k) (line.line_of memory table.now (number_of k)) }
{
    if !entry_named(table, number, tag) {
        return Err(Refusal::Entry);
    }
    let n = number as usize;
    if is_paged(table, n) {
        return Err(Refusal::Paged);
    }
    match walk(table, memory, n) {
        Ok(o) => Ok(o),
        Err(Broken::Dead(d)) => Err(Refusal::Dead(bad(n, d))),
        Err(Broken::Ill(i)) => Err(Refusal::IllFormed(bad(n, i))),
    }
}

// A quick yes: a token that is read as n names a direct, well-formed entry, which is its own owner. The type is looked at
// before the entry is read, so that the reading has no other to ask for.
pub fn near(table: &[u8], memory: u64, n: Named) -> bool
    ensures { result ≡ true → Near memory table.now n }
{
    if n.number >= (table.len() / 32) as u64 {
        return false;
    }
    let i = n.number as usize;
    if kind_of(words_at(table, i)) != DIRECT {
        return false;
    }
    let e = entry_at(table, i);
    has_tag(e, n.tag) && !ill_formed(memory, e)
}

// Places 2 to 4, quick where the token names a direct entry: in its caller, since a call of its own takes
// a third of the shortest requests.
#[inline(always)]
pub fn reach_near(table: &[u8], memory: u64, token: Token) -> Result<usize, Refusal>
    ensures { Reaches table.now result (live_verdict memory table.now token.word) (line.line_of memory table.now (number_of token.word)) }
{
    let named = token.named;
    if near(table, memory, named) {
        Ok(named.number as usize)
    } else {
        reach_live(table, memory, named.number, named.tag)
    }
}

// Places 2 and 3: whether the token's line is locked. A dead line, which is refusal 4, passes and counts
// as unlocked.
pub fn forms(table: &[u8], memory: u64, token: Token) -> Result<bool, Refusal>
    ensures { Forms result (formed_verdict memory table.now token.word) (line.is_locked table.now (line.line_of memory table.now (number_of token.word))) }
{
    match reach_near(table, memory, token) {
        Err(why) if why.is_dead() => Ok(false),
        Err(why) => Err(why),
        Ok(o) => Ok(entry_at(table, o).locked),
    }
}

// Place 5 for the token whose line has the owner o.
#[inline(always)]
fn open_at(table: &[u8], memory: u64, token: Token, task: u64, o: usize) -> Result<usize, Refusal>
    requires { Reaches table.now (Ok o) (live_verdict memory table.now token.word) (line.line_of memory table.now (number_of token.word)) }
    ensures { Reaches table.now result (reach_verdict memory table.now token.word task) (line.line_of memory table.now (number_of token.word)) }
{
    let e = entry_at(table, o);
    if e.locked & (e.holder != task) {
        return Err(Refusal::Lock);
    }
    Ok(o)
}

// Places 2 to 5.
pub fn reach(table: &[u8], memory: u64, token: Token, task: u64) -> Result<usize, Refusal>
    ensures { Reaches table.now result (reach_verdict memory table.now token.word task) (line.line_of memory table.now (number_of token.word)) }
{
    let owner = reach_live(table, memory, token.named.number, token.named.tag)?;
    open_at(table, memory, token, task, owner)
}

// The same, quick where the token names a direct entry.
#[inline(always)]
pub fn reach_open(table: &[u8], memory: u64, token: Token, task: u64) -> Result<usize, Refusal>
    ensures { Reaches table.now result (reach_verdict memory table.now token.word task) (line.line_of memory table.now (number_of token.word)) }
{
    let owner = reach_near(table, memory, token)?;
    open_at(table, memory, token, task, owner)
}

// Places 2 to 5 for a token that may name an entry that is paged out: such a one has no line and no
// lock.
pub fn reach_paged(table: &[u8], memory: u64, token: Token, task: u64) -> Result<(), Refusal>
    ensures { checked_as result ≡ page_verdict memory table.now token.word task }
{
    let named = token.named;
    if !entry_named(table, named.number, named.tag) {
        return Err(Refusal::Entry);
    }
    let n = named.number as usize;
    if !is_paged(table, n) {
        reach_open(table, memory, token, task)?;
        return Ok(());
    }
    if ill_formed(memory, entry_at(table, n)) {
        return Err(Refusal::IllFormed(Bad::Named));
    }
    Ok(())
}

// The line of an entry: from link to link up to its owner.
ghost use Rattle.std.specs.Prelude.{◌≡◌, ◌+◌, ◌*◌, ◌≤◌, false, length};
ghost use Rattle.machine.specs.Line.{end_of, is_paged, line_of, linked, links, parent_number};
ghost use Rattle.machine.specs.Parts.{at};
ghost use Rattle.table.specs.Lines.{line_as};

use crate::cut::{above, cut_at, passes};
use crate::entries::{entry_at, has_tag, words_at};
use forms::form::ill_formed;
use layout::entry::{DIRECT, Entry, FREE, PAGED, kind_of};
use tokens::token::{Encoding1, TokenEncoding};

// Why a walk up a line comes to no owner: the number of the entry that holds a missing link, or of an
// ill-formed one. It does not start at an entry that is paged out, and meets none.
#[derive(Clone, Copy)]
pub enum Broken {
    Dead(usize),
    Ill(usize),
}

// The number that the parent token names.
pub fn parent_number(e: Entry) -> u64
    ensures { result ≡ parent_number e }
{
    let p = Encoding1::unpacked(e.parent);
    p.number
}

// The entry p is the parent that e names, and older.
fn links(p: Entry, e: Entry) -> bool
    ensures { result ≡ links p e }
{
    let named = Encoding1::unpacked(e.parent);
    let tagged = has_tag(p, named.tag);
    (p.kind != FREE) & (p.kind != PAGED) & tagged & (p.nonce < e.nonce)
}

// The link of the entry e to its parent holds.
#[tactic(auto, using(crate::proofs::LineLaws::unlinked), unfolding(machine::specs::Parts::size))]
pub fn linked(table: &[u8], e: Entry) -> bool
    ensures { result ≡ linked table.now e }
{
    let n = parent_number(e);
    if n < (table.len() / 32) as u64 {
        links(entry_at(table, n as usize), e)
    } else {
        false
    }
}

// The entry of number n is paged out.
pub fn is_paged(table: &[u8], n: usize) -> bool
    requires { 32 * n + 32 ≤ length table.now }
    ensures { result ≡ is_paged (at table.now n) }
{
    kind_of(words_at(table, n)) == PAGED
}

// The end of the line of entry n, in a memory of so many bytes, whatever the entries are. That it is not
// paged out is said of the number beside its table, as its bound is (`entries::part_at`).
#[tactic(auto, using(crate::proofs::LineLaws::walks))]
fn trace(table: &[u8], memory: u64, n: usize) -> Result<usize, Broken>
    requires n_in_bounds { 32 * n + 32 ≤ length table.now }
    requires n_value { is_paged (at table.now n) ≡ false }
    ensures result_value { line_as result ≡ line_of memory table.now n }
    ensures result_in_bounds { 32 * end_of (line_as result) + 32 ≤ length table.now }
{
    let mut k = n;
    loop {
        let e = entry_at(table, k);
        if ill_formed(memory, e) {
            return Err(Broken::Ill(k));
        }
        if e.kind == DIRECT {
            return Ok(k);
        }
        if !linked(table, e) {
            return Err(Broken::Dead(k));
        }
        k = parent_number(e) as usize;
    }
}

// The same, quick where entry n is direct.
#[tactic(auto, using(crate::proofs::LineLaws::own_ill, crate::proofs::LineLaws::own_owner))]
fn ended(table: &[u8], memory: u64, n: usize) -> Result<usize, Broken>
    requires n_in_bounds { 32 * n + 32 ≤ length table.now }
    requires n_value { is_paged (at table.now n) ≡ false }
    ensures result_value { line_as result ≡ line_of memory table.now n }
    ensures result_in_bounds { 32 * end_of (line_as result) + 32 ≤ length table.now }
{
    let e = entry_at(table, n);
    if e.kind != DIRECT {
        return trace(table, memory, n);
    }
    if ill_formed(memory, e) {
        return Err(Broken::Ill(n));
    }
    Ok(n)
}

// How far the line of entry n goes up by entries that are well-formed and linked, each read once:
// the number of the first that is not passed, whose line ends where that of entry n does.
#[tactic(auto, using(crate::proofs::CutLaws::climb_less, crate::proofs::CutLaws::climb_up))]
fn climb(table: &[u8], memory: u64, n: usize) -> usize
    requires n_in_bounds { 32 * n + 32 ≤ length table.now }
    requires n_value { is_paged (at table.now n) ≡ false }
    ensures result_value { line_of memory table.now result ≡ line_of memory table.now n }
    ensures result_in_bounds { 32 * result + 32 ≤ length table.now }
    ensures result_unpaged { is_paged (at table.now result) ≡ false }
{
    let room = table.len() / 32 * 32;
    let mut byte = 32 * n;
    let mut c = cut_at(table, byte);
    while passes(memory, room as u64, c) {
        let up = c.up as usize;
        let p = cut_at(table, up);
        if !above(p, c) {
            return byte / 32;
        }
        byte = up;
        c = p;
    }
    byte / 32
}

// The end of the line of entry n, in a memory of so many bytes.
pub fn walk(table: &[u8], memory: u64, n: usize) -> Result<usize, Broken>
    requires n_in_bounds { 32 * n + 32 ≤ length table.now }
    requires n_value { is_paged (at table.now n) ≡ false }
    ensures result_value { line_as result ≡ line_of memory table.now n }
    ensures result_in_bounds { 32 * end_of (line_as result) + 32 ≤ length table.now }
{
    ended(table, memory, climb(table, memory, n))
}

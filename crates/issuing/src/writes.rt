// Writes that issue: the entries are stored with the nonces and tags that were found for them, and
// the state's counters move.
ghost use Rattle.std.specs.Prelude.{◌≡◌, [], ◌∷◌};
ghost use Rattle.layout.specs.Entry.{dated, entry_of, words_number};
ghost use Rattle.machine.specs.Issuing.{new_number};
ghost use Rattle.machine.specs.Parts.{at};
ghost use Rattle.machine.specs.Writes as write;
ghost use Rattle.issuing.specs.Issued.{Issues, IssuesTwo};
ghost use Rattle.table.specs.Left.{left_as, left_by};
ghost use Rattle.table.specs.States.{state_as};

use entering::issue::enter;
use entering::nonces::{Found, FoundTwo};
use layout::entry::Words;
use table::state::StateWords;

// One free number less, and not below 0.
fn one_less(total: u64) -> u64
    ensures { result ≡ write.one_less total }
{
    total.saturating_sub(1)
}

// The entry whose words are w is issued under the new number n; gives its token.
pub fn give(
    s: &mut StateWords,
    table: &mut [u8],
    n: usize,
    w: Words,
    new: Found,
    encoding: u64,
) -> u64
    requires issues { Issues (state_as s.old) table.old n (entry_of (words_number w)) new encoding }
    requires n_value { n ≡ new_number (state_as s.old) table.old }
    ensures { left_as s.new table.new (result ∷ []) ≡ left_by (write.write encoding (write.opened (state_as s.old) table.old) (write.give (dated (entry_of (words_number w))))) }
{
    let token = enter(table, n, w, new.nonce, new.tag, encoding);
    s.last = n as u64;
    s.next = new.nonce as u64 + 1;
    s.total = one_less(s.total);
    token
}

// It is issued anew under its number n.
pub fn reissue(
    s: &mut StateWords,
    table: &mut [u8],
    n: usize,
    w: Words,
    anew: Found,
    encoding: u64,
) -> u64
    requires { Issues (state_as s.old) table.old n (entry_of (words_number w)) anew encoding }
    ensures { left_as s.new table.new (result ∷ []) ≡ left_by (write.write encoding (write.opened (state_as s.old) table.old) (write.reissue n (dated (entry_of (words_number w))))) }
{
    let token = enter(table, n, w, anew.nonce, anew.tag, encoding);
    s.next = anew.nonce as u64 + 1;
    token
}

// The first is issued under number n, and then the second under number k: one of them is the new number,
// which it is given, and the other's entry, which is not free, is issued anew. Gives both tokens. In its
// callers, so that the state lent to it need not be in memory.
#[inline(always)]
pub fn issue_two(
    s: &mut StateWords,
    table: &mut [u8],
    n: usize,
    first: Words,
    k: usize,
    second: Words,
    new: FoundTwo,
    number: usize,
    encoding: u64,
) -> (u64, u64)
    requires issues_two { IssuesTwo (state_as s.old) table.old n (entry_of (words_number first)) k (entry_of (words_number second)) new encoding }
    requires number_value { number ≡ new_number (state_as s.old) table.old }
    ensures first_given { n ≡ number → left_as s.new table.new (result.0 ∷ result.1 ∷ []) ≡ left_by (write.written encoding (write.opened (state_as s.old) table.old) (write.give (dated (entry_of (words_number first))) ∷ write.reissue k (dated (entry_of (words_number second))) ∷ [])) }
    ensures second_given { k ≡ number → ((at table.old n).kind ≡ 0 → ⊥) → left_as s.new table.new (result.0 ∷ result.1 ∷ []) ≡ left_by (write.written encoding (write.opened (state_as s.old) table.old) (write.reissue n (dated (entry_of (words_number first))) ∷ write.give (dated (entry_of (words_number second))) ∷ [])) }
{
    let one = new.first;
    let two = new.second;
    let earlier = enter(table, n, first, one.nonce, one.tag, encoding);
    let later = enter(table, k, second, two.nonce, two.tag, encoding);
    s.last = number as u64;
    s.next = two.nonce as u64 + 1;
    s.total = one_less(s.total);
    (earlier, later)
}

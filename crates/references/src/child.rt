// Children: what derive and execute-only share.
ghost use Rattle.std.specs.Prelude.{◌≡◌};
ghost use Rattle.table.specs.States.{state_as};
ghost use Rattle.rulings.specs.Allotments.{Allots, Limits};
ghost use Rattle.rulings.specs.Rulings.{handed};
ghost use Rattle.references.specs.Children.{Bearing, bearing_on, child_verdict};

use altering::writes::recount;
use checks::refusal::Refusal;
use entering::nonces::find;
use issuing::writes::give;
use layout::entry::{Entry, base_of, count_of, issued_indirect, tag_of};
use rulings::allot::allot;
use rulings::reply::{Granted, giving};
use table::entries::words_at;
use table::state::StateWords;
use tokens::token::token_of;

// A part of a parent's segment, and what may be done with it.
#[derive(Clone, Copy)]
pub(crate) struct Part {
    pub offset: u32,
    pub length: u32,
    pub permissions: u8,
}

// Places 9 and 10, for the parent e.
pub(crate) fn allot_child(s: StateWords, table: &[u8], e: Entry) -> Result<usize, Refusal>
    requires { Limits (state_as s) table.now }
    ensures { Allots (state_as s) table.now result (child_verdict (state_as s) table.now e) }
{
    if e.count >= 65535 {
        return Err(Refusal::Standing);
    }
    allot(s, table)
}

// A child of entry n under the new number, over a part of the parent's segment, if a nonce is left for
// it. The parent's count rises by one. In its callers, so that the state lent to it need not be in memory.
#[inline(always)]
pub(crate) fn grant_child(
    s: &mut StateWords,
    table: &mut [u8],
    n: usize,
    new: usize,
    part: Part,
    encoding: u64,
) -> Result<Granted, Refusal>
    requires { Bearing (state_as s.old) table.old n new part.offset part.permissions encoding }
    ensures { handed s.new table.new result ≡ bearing_on (state_as s.old) table.old n part.offset part.length part.permissions encoding }
{
    let w = words_at(table, n);
    let parent = token_of(1, n, tag_of(w));
    let child = issued_indirect(
        base_of(w) + part.offset,
        part.length,
        parent,
        part.permissions,
    );
    let found = find(*s, table, new, child).ok_or(Refusal::Nonces)?;
    let given = give(s, table, new, child, found, encoding);
    recount(table, n, w, count_of(w) + 1);
    Ok(giving(given))
}

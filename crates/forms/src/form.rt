// Which entries are ill-formed in a memory of so many bytes.
ghost use Rattle.std.specs.Prelude.{false, ◌≡◌};
ghost use Rattle.layout.specs.Form.{faults_of, ill_formed, or_some};

use layout::entry::{DIRECT, Entry, FREE, INDIRECT, PAGED};
use tokens::token::encoding;

fn ill_direct(memory: u64, e: Entry) -> bool
    ensures { result ≡ or_some false (faults_of 1 memory e) }
{
    let end = u64::from(e.base) + u64::from(e.length);
    (e.length == 0) | (memory < end) | e.cow | (e.locked == (e.holder == 0))
}

fn ill_indirect(memory: u64, e: Entry) -> bool
    ensures { result ≡ or_some false (faults_of 2 memory e) }
{
    let end = u64::from(e.base) + u64::from(e.length);
    (e.length == 0)
        | (memory < end)
        | e.cow
        | e.locked
        | e.lockable
        | (e.zeros != 0)
        | (encoding(e.parent) != 1)
}

// An entry that is paged out has no place in memory.
fn ill_paged(memory: u64, e: Entry) -> bool
    ensures { result ≡ or_some false (faults_of 3 memory e) }
{
    (e.length == 0) | e.cow | e.locked | (e.zeros != 0)
}

// The entry is ill-formed. A free one never is. Its type may be any number (`layout::entry`).
pub fn ill_formed(memory: u64, e: Entry) -> bool
    ensures { result ≡ ill_formed memory e }
{
    match e.kind {
        FREE => false,
        DIRECT => ill_direct(memory, e),
        INDIRECT => ill_indirect(memory, e),
        PAGED => ill_paged(memory, e),
        _ => true,
    }
}

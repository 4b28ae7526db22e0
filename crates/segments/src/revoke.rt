// Revoke zeros a segment and issues its number anew, under another tag than it had.
ghost use Rattle.std.specs.Prelude.{◌≡◌, [], length};
ghost use Rattle.layout.specs.Entry.{entry_of, words_number};
ghost use Rattle.machine.specs.Operations as operation;
ghost use Rattle.machine.specs.Requests as request;
ghost use Rattle.machine.specs.Steps.{memory_after, pass};
ghost use Rattle.checks.specs.Refusals.{checked_as};
ghost use Rattle.table.specs.States.{state_as};
ghost use Rattle.rulings.specs.Rulings.{ended, front_on, handed, ruled};
ghost use Rattle.rulings.specs.Served.{ServedAlone};

use bits::slice::clear_from;
use checks::reach::reach_near;
use checks::refusal::Refusal;
use checks::settings::settings;
use entering::nonces::find_anew;
use issuing::writes::reissue;
use layout::entry::{DIRECT, Entry, Words, issued_direct};
use rulings::reply::{Granted, giving};
use table::entries::entry_at;
use table::state::StateWords;
use tokens::read::Token;

// The words of the entry e as it is issued anew: its segment, with all rights and no user.
fn fresh(e: Entry) -> Words
    ensures { entry_of (words_number result) ≡ operation.fresh e 0 }
{
    issued_direct(e.base, e.length, 0, 7, true)
}

// All places but 11.
fn check_revoke(
    s: StateWords,
    table: &[u8],
    memory: u64,
    token: Token,
    encoding: u64,
) -> Result<(), Refusal>
    ensures { checked_as result ≡ front_on memory (state_as s) table.now (request.revoke token.word encoding) [] }
{
    if !(settings(memory, s, table) & (encoding <= 3) & (token.named.offset == 0)) {
        return Err(Refusal::Request);
    }
    reach_near(table, memory, token)?;
    let e = entry_at(table, token.named.number as usize);
    if e.kind != DIRECT {
        return Err(Refusal::Kind);
    }
    Ok(())
}

// The nonce is found before anything is written.
fn grant_revoke(
    s: &mut StateWords,
    table: &mut [u8],
    memory: &mut [u8],
    token: Token,
    encoding: u64,
) -> Result<Granted, Refusal>
    requires { front_on (length memory.old) (state_as s.old) table.old (request.revoke token.word encoding) [] ≡ pass }
    ensures outcome { handed s.new table.new result ≡ ruled (ended (state_as s.old) table.old (operation.grant (length memory.old) table.old (request.revoke token.word encoding) [])) }
    ensures memory_left { memory.new ≡ memory_after (ended (state_as s.old) table.old (operation.grant (length memory.old) table.old (request.revoke token.word encoding) [])).effect memory.old }
{
    let n = token.named.number as usize;
    let e = entry_at(table, n);
    let w = fresh(e);
    let found = find_anew(*s, n, w, e.tag).ok_or(Refusal::Nonces)?;
    let anew = reissue(s, table, n, w, found, encoding);
    clear_from(memory, e.base as usize, e.length as usize);
    Ok(giving(anew))
}

// The segment is zeroed and issued anew, with all rights; the tag that it had names it no more.
pub fn revoke(
    s: &mut StateWords,
    table: &mut [u8],
    memory: &mut [u8],
    token: u64,
    encoding: u64,
) -> Result<Granted, Refusal>
    ensures { ServedAlone (request.revoke token encoding) s.old table.old memory.old s.new table.new memory.new result }
{
    let token = Token::from(token);
    check_revoke(*s, table, memory.len() as u64, token, encoding)?;
    grant_revoke(s, table, memory, token, encoding)
}

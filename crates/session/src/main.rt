// Paper 01's session: 65,536 bytes, 4 entries, key 0, first nonce 1, task 0 unless named. Prints a
// line for each case: case, space, refusal (0 granted). Case 6, a derive of the whole, is granted, as
// paper 1 of 02 has it.
#![tactic(auto)]

use operations::state::{Outcome, State};
use rulings::reply::refusal_of;
use rulings::request::{Access, Create, Derive, Reset, Way};
use std::io;
use table::state::StateWords;

// Prints a case's line, and hands the state on.
fn shown(rt: &impl Print, case: u64, r: Outcome) -> io::Result<State> {
    let refusal = refusal_of(r.reply);
    println!(rt; "{case} {refusal}")?;
    Ok(r.state)
}

// A read of as many bytes as the buffer has.
fn read(
    s: State,
    table: &[u8],
    memory: &mut [u8],
    buffer: &mut [u8],
    token: u64,
    task: u64,
) -> Outcome {
    let request = Access {
        way: Way::Read,
        token,
        task,
        minute: 0,
    };
    s.access(table, memory, buffer, &table[..0], request)
}

// A read of twelve bytes, and of one.
fn read_twelve(s: State, table: &[u8], memory: &mut [u8], token: u64) -> Outcome {
    let mut buffer = [0u8; 12];
    read(s, table, memory, &mut buffer, token, 0)
}

fn read_one(s: State, table: &[u8], memory: &mut [u8], token: u64, task: u64) -> Outcome {
    let mut buffer = [0u8; 1];
    read(s, table, memory, &mut buffer, token, task)
}

// A child of the root's first bytes, with R.
fn child(s: State, table: &mut [u8], memory: &[u8], length: u64) -> Outcome {
    let request = Derive {
        token: 0,
        offset: 0,
        length,
        permissions: 4,
        encoding: 0,
    };
    s.derive(table, memory, request)
}

// The first token of an answer; 0, the root's, if it has none. (`traps` has it too, and `read_one`: no program
// stands on another.)
fn first_token(r: Outcome) -> u64 {
    match r.reply {
        Ok(granted) => granted.first().unwrap_or(0),
        Err(_) => 0,
    }
}

// Cases 1 to 4: reads through token 0, whose offset is the address.
fn reads(rt: &impl Print, s: State, table: &[u8], memory: &mut [u8]) -> io::Result<State> {
    let s = shown(rt, 1, read_twelve(s, table, memory, 4096))?;
    let s = shown(rt, 2, read_one(s, table, memory, 65535, 0))?;
    let s = shown(rt, 3, read_one(s, table, memory, 65536, 0))?;
    shown(rt, 4, read_twelve(s, table, memory, 65525))
}

// Cases 7 to 11.
fn locked(rt: &impl Print, s: State, table: &mut [u8], memory: &mut [u8]) -> io::Result<State> {
    let request = Create {
        token: 0,
        task: 0,
        length: 4096,
        user: 0,
        permissions: 7,
        encoding: 0,
    };
    let s = shown(rt, 7, s.create(table, memory, request))?;
    let s = shown(rt, 8, s.lock(table, memory, 0, 0))?;
    let s = shown(rt, 9, s.lock(table, memory, 0, 7))?;
    let s = shown(rt, 10, read_one(s, table, memory, 0, 8))?;
    shown(rt, 11, s.drop(table, memory, 0))
}

// Cases 12 to 15, with the token that case 5 gave.
fn revoked(
    rt: &impl Print,
    s: State,
    table: &mut [u8],
    memory: &mut [u8],
    token: u64,
) -> io::Result<()> {
    let s = shown(rt, 12, s.revoke(table, memory, 0, 0))?;
    let s = shown(rt, 13, read_one(s, table, memory, 0, 0))?;
    let s = shown(rt, 14, read_one(s, table, memory, token, 0))?;
    shown(rt, 15, s.drop(table, memory, token))?;
    Ok(())
}

fn session(rt: &impl Print, table: &mut [u8], memory: &mut [u8]) -> io::Result<()> {
    let blank = State {
        words: StateWords {
            key0: 0,
            key1: 0,
            last: 0,
            next: 0,
            total: 0,
        },
    };
    let request = Reset {
        key0: 0,
        key1: 0,
        first_nonce: 1,
    };
    let start = blank.reset(table, memory, request);
    let s = reads(rt, start.state, table, memory)?;
    let derived = child(s, table, memory, 65535);
    let token = first_token(derived);
    let s = shown(rt, 5, derived)?;
    let s = shown(rt, 6, child(s, table, memory, 65536))?;
    let s = locked(rt, s, table, memory)?;
    revoked(rt, s, table, memory, token)
}

fn main(rt: HostRuntime) -> io::Result<()> {
    let mut table = [0u8; 128];
    let mut memory = [0u8; 65536];
    session(&rt, &mut table, &mut memory)
}

// Paper 01's traps, a drop's climb and a lock under a drop, each over 64 bytes and 4 entries with
// key 0 and first nonce 1. Prints a line for each request: what it tries, the refusal (0 granted),
// and drop's number; and during the climb the total of free numbers.
#![tactic(auto)]

use operations::state::{Outcome, State};
use rulings::reply::refusal_of;
use rulings::request::{Access, Create, Derive, Reset, Way};
use std::io;
use table::state::StateWords;

// The first token of an answer; 0, the root's, if it has none. (`session` has it too, and `read_one`: no program
// stands on another.)
fn first_token(r: Outcome) -> u64 {
    match r.reply {
        Ok(granted) => granted.first().unwrap_or(0),
        Err(_) => 0,
    }
}

fn drop_number(r: Outcome) -> u64 {
    match r.reply {
        Ok(granted) => granted.dropped(),
        Err(_) => 0,
    }
}

// Prints a line, and hands the state on.
fn shown(rt: &impl Print, what: &str, r: Outcome) -> io::Result<State> {
    let refusal = refusal_of(r.reply);
    let number = drop_number(r);
    println!(rt; "{what} {refusal} {number}")?;
    Ok(r.state)
}

// Prints the total of free numbers, and hands the state on.
fn polled(rt: &impl Print, s: State) -> io::Result<State> {
    let total = s.free_total();
    println!(rt; "free numbers {total}")?;
    Ok(s)
}

fn read_one(s: State, table: &[u8], memory: &mut [u8], token: u64, task: u64) -> Outcome {
    let mut buffer = [0u8; 1];
    let request = Access {
        way: Way::Read,
        token,
        task,
        minute: 0,
    };
    s.access(table, memory, &mut buffer, &table[..0], request)
}

fn started(table: &mut [u8], memory: &[u8]) -> State {
    let blank = State {
        words: StateWords {
            key0: 0,
            key1: 0,
            last: 0,
            next: 0,
            total: 0,
        },
    };
    let request = Reset {
        key0: 0,
        key1: 0,
        first_nonce: 1,
    };
    blank.reset(table, memory, request).state
}

// A child of the parent's first bytes, with R.
fn child(s: State, table: &mut [u8], memory: &[u8], token: u64, length: u64) -> Outcome {
    let request = Derive {
        token,
        offset: 0,
        length,
        permissions: 4,
        encoding: 1,
    };
    s.derive(table, memory, request)
}

// Comparing the low 55 bits of a task: 2^55 + 7 is not 7.
fn low_bits(rt: &impl Print, table: &mut [u8], memory: &mut [u8]) -> io::Result<()> {
    let s = started(table, memory);
    let s = shown(rt, "lock by 7", s.lock(table, memory, 0, 7))?;
    let s = shown(rt, "read by 7", read_one(s, table, memory, 0, 7))?;
    let s = shown(
        rt,
        "read by 2^55 + 7",
        read_one(s, table, memory, 0, 36028797018963975),
    )?;
    shown(rt, "read by 8", read_one(s, table, memory, 0, 8))?;
    Ok(())
}

// A number given again does not revive a dead child, and a dead child can be dropped.
fn given_again(rt: &impl Print, table: &mut [u8], memory: &mut [u8]) -> io::Result<()> {
    let s = started(table, memory);
    let a = child(s, table, memory, 0, 8);
    let first = first_token(a);
    let b = child(a.state, table, memory, first, 7);
    let second = first_token(b);
    let s = shown(rt, "drop the parent", b.state.drop(table, memory, first))?;
    let s = shown(rt, "drop it again", s.drop(table, memory, first))?;
    let c = child(s, table, memory, 0, 8);
    let d = child(c.state, table, memory, 0, 8);
    let s = shown(
        rt,
        "read through the dead child",
        read_one(d.state, table, memory, second, 0),
    )?;
    shown(rt, "drop the dead child", s.drop(table, memory, second))?;
    Ok(())
}

// A plain address is not physical: after a revoke entry 0 has another tag.
fn plain_address(rt: &impl Print, table: &mut [u8], memory: &mut [u8]) -> io::Result<()> {
    let s = started(table, memory);
    let s = shown(rt, "read at 0", read_one(s, table, memory, 0, 0))?;
    let s = shown(rt, "revoke the root", s.revoke(table, memory, 0, 0))?;
    shown(rt, "read at 0 again", read_one(s, table, memory, 0, 0))?;
    Ok(())
}

// The climb of a drop: the last holder of a grandchild frees it, its parent and the root's count.
fn climbed(rt: &impl Print, table: &mut [u8], memory: &mut [u8]) -> io::Result<()> {
    let s = started(table, memory);
    let a = child(s, table, memory, 0, 8);
    let first = first_token(a);
    let b = child(a.state, table, memory, first, 7);
    let second = first_token(b);
    let s = polled(rt, b.state)?;
    let s = shown(
        rt,
        "drop the child at count 2",
        s.drop(table, memory, first),
    )?;
    let s = shown(rt, "drop the grandchild", s.drop(table, memory, second))?;
    let s = polled(rt, s)?;
    let s = shown(
        rt,
        "read through the child",
        read_one(s, table, memory, first, 0),
    )?;
    let request = Create {
        token: 0,
        task: 0,
        length: 16,
        user: 0,
        permissions: 7,
        encoding: 1,
    };
    shown(rt, "create from the root", s.create(table, memory, request))?;
    Ok(())
}

// A lock under a drop: at count 1 nothing changes.
fn locked(rt: &impl Print, table: &mut [u8], memory: &[u8]) -> io::Result<()> {
    let s = started(table, memory);
    let a = child(s, table, memory, 0, 8);
    let token = first_token(a);
    let s = shown(
        rt,
        "lock through the child",
        a.state.lock(table, memory, token, 7),
    )?;
    let s = shown(rt, "drop it under the lock", s.drop(table, memory, token))?;
    let s = shown(rt, "unlock", s.unlock(table, memory, 0, 7))?;
    shown(rt, "drop it unlocked", s.drop(table, memory, token))?;
    Ok(())
}

fn main(rt: HostRuntime) -> io::Result<()> {
    let mut table = [0u8; 128];
    let mut memory = [0u8; 64];
    low_bits(&rt, &mut table, &mut memory)?;
    given_again(&rt, &mut table, &mut memory)?;
    plain_address(&rt, &mut table, &mut memory)?;
    climbed(&rt, &mut table, &mut memory)?;
    locked(&rt, &mut table, &memory)
}

// Prints the published SipHash-2-4 vectors and 01's packed examples, as the code makes them.
#![tactic(auto)]

use bits::siphash::siphash;
use bits::word::swapped;
use layout::entry::{Words, direct, read_words, write};
use std::io;
use tokens::token::{Named, pack};

// The bytes 00 01 .. 3f, of which each message is a front.
fn message() -> [u8; 64] {
    let mut m = [0u8; 64];
    for (i, byte) in m.iter_mut().enumerate() {
        *byte = i as u8;
    }
    m
}

// The hash of a message under the key 00 01 .. 0f, its bytes in the published order, the low one
// first.
fn print_hash(rt: &impl Print, message: &[u8]) -> io::Result<()> {
    let hash = siphash(0x0706050403020100, 0x0f0e0d0c0b0a0908, message);
    let length = message.len();
    let word = swapped(hash);
    println!(rt; "siphash {length} {word:016x}")
}

fn print_hashes(rt: &impl Print) -> io::Result<()> {
    let m = message();
    for n in 0..m.len() {
        print_hash(rt, &m[..n])?;
    }
    Ok(())
}

// The token of tag 1234, number 5 and the offset, in the encoding.
fn print_token(rt: &impl Print, encoding: u64, offset: u64) -> io::Result<()> {
    let named = Named {
        tag: 0x1234,
        number: 5,
        offset,
    };
    match pack(encoding, named) {
        Some(t) => println!(rt; "token {encoding} {t:016x}"),
        None => println!(rt; "token {encoding} too wide"),
    }
}

// The 32 bytes of the root entry over 65,536 bytes.
fn print_root(rt: &impl Print) -> io::Result<()> {
    let mut part = [0u8; 32];
    write(&mut part, direct(0, 65536, 0, 7, true, 0, 0));
    let Words { a, b, c, d } = read_words(&part);
    println!(rt; "root {a:016x}{b:016x}{c:016x}{d:016x}")
}

fn main(rt: HostRuntime) -> io::Result<()> {
    print_hashes(&rt)?;
    print_token(&rt, 0, 12)?;
    print_token(&rt, 1, 0)?;
    print_token(&rt, 2, 12)?;
    print_token(&rt, 3, 12)?;
    print_root(&rt)
}

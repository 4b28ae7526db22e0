// One record.
ghost use Rattle.std.specs.Prelude.{◌≡◌, ◌*◌, ◌<◌, ◌≤◌, length};
ghost use Rattle.hexfile.specs.Record.{bytes_of, faults_of, some};
ghost use Rattle.hexfile.specs.Text.{first, lines};
ghost use Rattle.hexread.specs.Answers.{bytes_as, record_in};
ghost use Rattle.hexread.specs.Premises.{Counted, Ruled, Summed};

use crate::digits::{pair, value, word};

// What is wrong with a record: its form, or its checksum alone.
#[derive(Clone, Copy, PartialEq, Eq)]
pub enum Fault {
    Malformed,
    WrongSum,
}

// Data at an address of the page, so many bytes; the end; or a page.
#[derive(Clone, Copy)]
pub enum Record {
    Data { address: usize, count: usize },
    End,
    Page(usize),
}

// Sums of digits: the first ones of bytes, and the second ones.
#[derive(Clone, Copy)]
pub struct Sums {
    pub high: usize,
    pub low: usize,
}

// The sums of a record's digits. By the place of each pair: over `chunks_exact(2)` the compiler doesn't unroll
// the loop, and judging a text takes a tenth longer.
fn sums_of(chars: &[u8], pairs: usize) -> Sums
    requires { (length chars.now ≡ 2 * pairs) × (pairs ≤ 260) }
    ensures { Summed chars.now result.high result.low }
{
    let mut high = 0;
    let mut low = 0;
    for i in 0..pairs {
        high += value(chars[2 * i]);
        low += value(chars[2 * i + 1]);
    }
    Sums { high, low }
}

// A record of this type, address and count is malformed. The types: 0 data, 1 the end, 4 a page; they stay
// the text's own numbers until a `Record` is made of them, since an enum of all would need one for the rest.
fn faulty(kind: usize, address: usize, count: usize) -> bool
    requires { (address < 65536) × (count < 256) }
    ensures { result ≡ some (faults_of kind address count) }
{
    match kind {
        0 => 65536 < address + count,
        1 => address != 0 || count != 0,
        4 => address != 0 || count != 2,
        _ => true,
    }
}

// What bytes make a record, of so many data bytes and this sum.
fn ruled(chars: &[u8], size: usize, total: usize) -> Result<Record, Fault>
    requires { Ruled chars.now size total }
    ensures { result ≡ bytes_as (bytes_of chars.now) }
{
    let kind = pair(chars, 6);
    let address = word(chars, 2);
    if faulty(kind, address, size) {
        return Err(Fault::Malformed);
    }
    if total % 256 != 0 {
        return Err(Fault::WrongSum);
    }
    Ok(match kind {
        0 => Record::Data {
            address,
            count: size,
        },
        1 => Record::End,
        _ => Record::Page(word(chars, 8)),
    })
}

// The record that characters make, if their count is right.
fn record_of(chars: &[u8], size: usize) -> Result<Record, Fault>
    requires { Counted chars.now size }
    ensures { result ≡ bytes_as (bytes_of chars.now) }
{
    let Sums { high, low } = sums_of(chars, size + 5);
    if 4095 < high || 4095 < low {
        return Err(Fault::Malformed);
    }
    ruled(chars, size, 16 * high + low)
}

// The first record of a text.
pub(crate) fn record_in(text: &[u8]) -> Result<Record, Fault>
    ensures { result ≡ record_in (lines text.now) }
{
    if text.len() < 12 || text[0] != b':' {
        return Err(Fault::Malformed);
    }
    let size = pair(text, 1);
    let end = 2 * size + 11;
    if 255 < size || text.len() <= end || text[end] != b'\n' {
        return Err(Fault::Malformed);
    }
    record_of(&text[1..end], size)
}

// The same, of a text whose first record has no fault: its fields alone.
pub(crate) fn known_in(text: &[u8]) -> Record
    requires { (first (lines text.now) ≡ 0) × (12 ≤ length text.now) }
    ensures { Ok result ≡ record_in (lines text.now) }
{
    match pair(text, 7) {
        0 => Record::Data {
            address: word(text, 3),
            count: pair(text, 1),
        },
        1 => Record::End,
        _ => Record::Page(word(text, 9)),
    }
}

// Intel HEX text, written.
#![tactic(auto)]

ghost use Rattle.std.specs.Prelude.{◌≡◌, ◌+◌, ◌-◌, ◌*◌, ◌/◌, ◌%◌, ◌<◌, ◌≤◌, [], ◌∷◌, length};
ghost use Rattle.hexfile.specs.Record.{sum};
ghost use Rattle.hexfile.specs.Written.{capital, data_records, digits, many, record_of, written, written_length};
ghost use Rattle.hexwrite.specs.Laid.{Laid};

// A record's type, by its number in the text.
enum Kind {
    Data = 0,
    End = 1,
    Page = 4,
}

// The buffer and the place in it stay two parameters: a cursor of both would have each contract say, beside
// what is laid, where the cursor stands afterwards.

// The capital digit of a value.
#[tactic(auto, using(crate::proofs::WriteLaws::capital_tens, crate::proofs::WriteLaws::capital_letters))]
fn capital(d: u8) -> u8
    requires { d < 16 }
    ensures { result ≡ capital d }
{
    if d < 10 { b'0' + d } else { b'A' - 10 + d }
}

// One character.
fn put_char(out: &mut [u8], at: usize, c: u8)
    requires { at < length out.old }
    ensures { Laid out.old out.new at (c ∷ []) }
{
    out[at] = c;
}

// The two digits of a byte.
fn put_byte(out: &mut [u8], at: usize, b: u8)
    requires { at + 2 ≤ length out.old }
    ensures { Laid out.old out.new at (digits (b ∷ [])) }
{
    put_char(out, at, capital(b / 16));
    put_char(out, at + 1, capital(b % 16));
}

// The digits of bytes; and the sum of the bytes, modulo 256.
fn put_digits(out: &mut [u8], at: usize, bytes: &[u8]) -> u8
    requires { at + 2 * length bytes.now ≤ length out.old }
    ensures { (Laid out.old out.new at (digits bytes.now)) × (result ≡ sum bytes.now % 256) }
{
    let mut total: u8 = 0;
    for (i, b) in bytes.iter().enumerate() {
        put_byte(out, at + 2 * i, *b);
        total = total.wrapping_add(*b);
    }
    total
}

// A record's checksum, by its fields and the sum of its data.
fn check_byte(kind: u8, address: usize, count: usize, total: u8) -> u8
    requires { (address < 65536) × (count < 256) }
    ensures { result ≡ (256 - (count + address / 256 + address % 256 + kind + total) % 256) % 256 }
{
    let all = count + address / 256 + address % 256 + usize::from(kind) + usize::from(total);
    ((256 - all % 256) % 256) as u8
}

// A record's characters before its data.
fn put_head(out: &mut [u8], at: usize, kind: u8, address: usize, count: usize)
    requires { (at + 9 ≤ length out.old) × ((address < 65536) × (count < 256)) }
    ensures { Laid out.old out.new at (58 ∷ digits (count ∷ address / 256 ∷ address % 256 ∷ kind ∷ [])) }
{
    put_char(out, at, b':');
    put_byte(out, at + 1, count as u8);
    put_byte(out, at + 3, (address / 256) as u8);
    put_byte(out, at + 5, (address % 256) as u8);
    put_byte(out, at + 7, kind);
}

// A record.
fn write_record(out: &mut [u8], at: usize, kind: u8, address: usize, bytes: &[u8])
    requires { (at + (2 * length bytes.now + 12) ≤ length out.old) × ((address < 65536) × (length bytes.now < 256)) }
    ensures { Laid out.old out.new at (record_of kind address bytes.now) }
{
    let count = bytes.len();
    put_head(out, at, kind, address, count);
    let total = put_digits(out, at + 9, bytes);
    put_byte(
        out,
        at + 9 + 2 * count,
        check_byte(kind, address, count, total),
    );
    put_char(out, at + 11 + 2 * count, b'\n');
}

// The data records of bytes, 16 in each: 44 characters, but in the last.
fn write_data(out: &mut [u8], start: usize, bytes: &[u8])
    requires { (length bytes.now ≤ 65536) × (start + (2 * length bytes.now + 12 * many (length bytes.now)) ≤ length out.old) }
    ensures { Laid out.old out.new start (data_records (many (length bytes.now)) 0 bytes.now) }
{
    for (i, part) in bytes.chunks(16).enumerate() {
        write_record(out, start + 44 * i, Kind::Data as u8, 16 * i, part);
    }
}

// The text of bytes.
pub fn write_text(out: &mut [u8], bytes: &[u8])
    requires { (length bytes.now ≤ 65536) × (written_length (length bytes.now) ≤ length out.old) }
    ensures { Laid out.old out.new 0 (written bytes.now) }
{
    write_record(out, 0, Kind::Page as u8, 0, &[0, 0]);
    write_data(out, 16, bytes);
    let end = 16 + 2 * bytes.len() + 12 * bytes.len().div_ceil(16);
    write_record(out, end, Kind::End as u8, 0, &[]);
}

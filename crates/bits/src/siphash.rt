// SipHash-2-4.
ghost use Rattle.std.specs.Prelude.{◌≡◌, ◌/◌, ◌<◌, get_or, length};
ghost use Rattle.bits.specs.SipHash as spec;

#[derive(Clone, Copy)]
pub struct Lanes {
    pub v0: u64,
    pub v1: u64,
    pub v2: u64,
    pub v3: u64,
}

// The sum modulo 2^64. A rule of the project: the wrapping addition and the rotation of the rounds are its own, in place of
// the library's.
#[tactic(auto, unfolding(crate::specs::SipHash::add64))]
fn wrapping_add(a: u64, b: u64) -> u64
    ensures { result ≡ spec.add64 a b }
{
    if a <= u64::MAX - b {
        a + b
    } else {
        a - (u64::MAX - b) - 1
    }
}

// x turned left by k of its bits.
#[tactic(auto, using(crate::proofs::SipLaws::turned))]
fn rotate_left(x: u64, k: u64) -> u64
    requires { (0 < k) × (k < 64) }
    ensures { result ≡ spec.rotl x k }
{
    (x << k) | (x >> (64 - k))
}

#[tactic(auto, using(crate::proofs::SipLaws::rounded))]
fn sip_round(v: Lanes) -> Lanes
    ensures { result ≡ spec.sip_round v }
{
    let v0 = wrapping_add(v.v0, v.v1);
    let v1 = rotate_left(v.v1, 13) ^ v0;
    let v0 = rotate_left(v0, 32);
    let v2 = wrapping_add(v.v2, v.v3);
    let v3 = rotate_left(v.v3, 16) ^ v2;
    let v0 = wrapping_add(v0, v3);
    let v3 = rotate_left(v3, 21) ^ v0;
    let v2 = wrapping_add(v2, v1);
    let v1 = rotate_left(v1, 17) ^ v2;
    let v2 = rotate_left(v2, 32);
    Lanes { v0, v1, v2, v3 }
}

pub fn start(k0: u64, k1: u64) -> Lanes
    ensures { result ≡ spec.start k0 k1 }
{
    Lanes {
        v0: k0 ^ 0x736f6d6570736575,
        v1: k1 ^ 0x646f72616e646f6d,
        v2: k0 ^ 0x6c7967656e657261,
        v3: k1 ^ 0x7465646279746573,
    }
}

#[tactic(auto, unfolding(crate::specs::SipHash::compress))]
pub fn compress(v: Lanes, m: u64) -> Lanes
    ensures { result ≡ spec.compress v m }
{
    let mixed = Lanes { v3: v.v3 ^ m, ..v };
    let w = sip_round(sip_round(mixed));
    Lanes { v0: w.v0 ^ m, ..w }
}

#[tactic(auto, unfolding(crate::specs::SipHash::finish))]
pub fn finish(v: Lanes) -> u64
    ensures { result ≡ spec.finish v }
{
    let marked = Lanes {
        v2: v.v2 ^ 0xff,
        ..v
    };
    let w = sip_round(sip_round(sip_round(sip_round(marked))));
    w.v0 ^ w.v1 ^ w.v2 ^ w.v3
}

// The whole words of the message go in.
fn absorb(v: Lanes, message: &[u8]) -> Lanes
    ensures { result ≡ spec.absorb (length message.now / 8) message.now v }
{
    let (words, _) = message.as_chunks::<8>();
    let mut lanes = v;
    for word in words {
        lanes = compress(lanes, u64::from_le_bytes(*word));
    }
    lanes
}

fn byte_or_zero(s: &[u8], i: usize) -> u8
    ensures { result ≡ get_or s.now i 0 }
{
    s.get(i).copied().unwrap_or(0)
}

// The last word of the padded message: what is left after the whole words, null bytes, and a byte for the length. It is
// taken byte by byte: a copy of so few is a call of memcpy, which takes longer.
#[tactic(auto, using(crate::proofs::SipLaws::last_read))]
fn last_word(message: &[u8]) -> u64
    ensures { result ≡ spec.word (spec.padded message.now) (length message.now / 8) }
{
    let length = message.len();
    let rest = &message[8 * (length / 8)..];
    u64::from_le_bytes([
        byte_or_zero(rest, 0),
        byte_or_zero(rest, 1),
        byte_or_zero(rest, 2),
        byte_or_zero(rest, 3),
        byte_or_zero(rest, 4),
        byte_or_zero(rest, 5),
        byte_or_zero(rest, 6),
        (length % 256) as u8,
    ])
}

// The hash of the message under the key k0, k1.
#[tactic(auto, using(crate::proofs::SipLaws::hashed))]
pub fn siphash(k0: u64, k1: u64, message: &[u8]) -> u64
    ensures { result ≡ spec.siphash k0 k1 message.now }
{
    let v = absorb(start(k0, k1), message);
    finish(compress(v, last_word(message)))
}

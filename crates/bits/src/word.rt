// A 64-bit word as eight bytes, the high byte first or the low byte first.
ghost use Rattle.std.specs.Prelude.{◌≡◌, length};
ghost use Rattle.bits.specs.Bytes.{bytes, low_bytes, low_number, number};

// The word with its bytes in the other order.
#[tactic(auto, using(crate::proofs::ByteLaws::swapped_bytes))]
pub fn swapped(w: u64) -> u64
    ensures { result ≡ low_number 8 (bytes 8 w) }
{
    w.swap_bytes()
}

// The word that eight bytes hold, the low byte first. They are a slice: each caller has a part of a longer one, and an array
// would be made there.
#[tactic(auto, using(crate::proofs::ByteLaws::low_read))]
pub fn get_low(part: &[u8]) -> u64
    requires { length part.now ≡ 8 }
    ensures { result ≡ low_number 8 part.now }
{
    u64::from_le_bytes(*part.as_array().unwrap())
}

// The same, the high byte first.
#[tactic(auto, using(crate::proofs::ByteLaws::read))]
pub fn get(part: &[u8]) -> u64
    requires { length part.now ≡ 8 }
    ensures { result ≡ number 8 part.now }
{
    u64::from_be_bytes(*part.as_array().unwrap())
}

// The word is stored as eight bytes, the low byte first.
#[tactic(auto, using(crate::proofs::ByteLaws::low_stored))]
pub fn put_low(part: &mut [u8], w: u64)
    requires { length part.old ≡ 8 }
    ensures { part.new ≡ low_bytes 8 w }
{
    *part.as_mut_array().unwrap() = w.to_le_bytes();
}

// The same, the high byte first.
#[tactic(auto, using(crate::proofs::ByteLaws::stored))]
pub fn put(part: &mut [u8], w: u64)
    requires { length part.old ≡ 8 }
    ensures { part.new ≡ bytes 8 w }
{
    *part.as_mut_array().unwrap() = w.to_be_bytes();
}

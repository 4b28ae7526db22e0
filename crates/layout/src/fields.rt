// Fields of a 64-bit word.
ghost use Rattle.std.specs.Prelude.{◌≡◌, [], ◌∷◌, ◌+◌, ◌-◌, ◌/◌, ◌%◌, ◌^◌, ◌<◌};
ghost use Rattle.bits.specs.Fields.{pack};

// The low bits of a word, so many.
pub fn low<const BITS: u32>(word: u64) -> u64
    requires { BITS < 64 }
    ensures value { result ≡ word % 2 ^ BITS }
    ensures upper_bound { result < 2 ^ BITS }
{
    word % (1 << BITS)
}

// A word of two fields, the low one of so many bits.
pub fn two_fields<const LOW: u32>(high: u64, low: u64) -> u64
    requires widths { LOW < 64 }
    requires fit { (high < 2 ^ (64 - LOW)) × (low < 2 ^ LOW) }
    ensures { result ≡ pack ((64 - LOW) ∷ LOW ∷ []) (high ∷ low ∷ []) }
{
    (high << LOW) + low
}

// A word of three fields, the middle one and the low one of so many bits.
pub fn three_fields<const MIDDLE: u32, const LOW: u32>(high: u64, middle: u64, low: u64) -> u64
    requires widths { MIDDLE + LOW < 64 }
    requires fit { (high < 2 ^ (64 - (MIDDLE + LOW))) × ((middle < 2 ^ MIDDLE) × (low < 2 ^ LOW)) }
    ensures { result ≡ pack ((64 - (MIDDLE + LOW)) ∷ MIDDLE ∷ LOW ∷ []) (high ∷ middle ∷ low ∷ []) }
{
    (high << (MIDDLE + LOW)) + (middle << LOW) + low
}

// The word with another middle field.
pub fn replaced<const MIDDLE: u32, const LOW: u32>(word: u64, middle: u64) -> u64
    requires widths { MIDDLE + LOW < 64 }
    requires fit { middle < 2 ^ MIDDLE }
    ensures { result ≡ pack ((64 - (MIDDLE + LOW)) ∷ MIDDLE ∷ LOW ∷ []) (word / 2 ^ (MIDDLE + LOW) ∷ middle ∷ word % 2 ^ LOW ∷ []) }
{
    three_fields::<MIDDLE, LOW>(word >> (MIDDLE + LOW), middle, low::<LOW>(word))
}

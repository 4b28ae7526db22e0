// Bounds: place 8, as far as accesses and derives share it.
ghost use Rattle.std.specs.Prelude.{◌≡◌, ◌+◌, leb};

// Whether a and b, as a true sum, are at most the length of a segment: an access's offset and bytes,
// a derive's length and offset. They are compared without adding, which could overflow.
pub fn inside(a: u64, b: u64, length: u64) -> bool
    ensures { result ≡ leb (a + b) length }
{
    b <= length && a <= length - b
}

// Slices of bytes: cleared, and copied.
ghost use Rattle.std.specs.Prelude.{◌≡◌, ◌+◌, ◌≤◌, length, replicate};
ghost use Rattle.std.proofs.lemmas.List.Edits.{sets};

// Every byte becomes zero. By the index it is one memset wherever it stands; over the slice itself a
// reset's table is cleared by a loop, and by `fill` the last byte would be a store of its own.
pub fn clear(part: &mut [u8])
    ensures { part.new ≡ replicate (length part.old) 0 }
{
    for i in 0..part.len() {
        part[i] = 0;
    }
}

// So many bytes become zero, from start on: the slice is the whole that the contract speaks of.
pub fn clear_from(whole: &mut [u8], start: usize, count: usize)
    requires { start + count ≤ length whole.old }
    ensures { whole.new ≡ sets whole.old start (replicate count 0) }
{
    let end = start + count;
    clear(&mut whole[start..end]);
}

// The bytes of one part, at most 4,096, to another of the same length, by way of an array, which overlaps neither part: so
// the compiler makes one memmove of both copies, and drops the array. One copy alone is a loop, which takes longer.
pub fn copy(to: &mut [u8], from: &[u8])
    requires { (length to.old ≡ length from.now) × (length from.now ≤ 4096) }
    ensures { to.new ≡ from.now }
{
    let mut between = [0; 4096];
    let part = &mut between[..from.len()];
    part.copy_from_slice(from);
    to.copy_from_slice(part);
}

// The same for any length, 4,096 bytes at a time.
pub fn copy_long(to: &mut [u8], from: &[u8])
    requires { length to.old ≡ length from.now }
    ensures { to.new ≡ from.now }
{
    let whole = from.len() / 4096;
    for i in 0..whole {
        let start = 4096 * i;
        let end = start + 4096;
        copy(&mut to[start..end], &from[start..end]);
    }
    let end = 4096 * whole;
    copy(&mut to[end..], &from[end..]);
}

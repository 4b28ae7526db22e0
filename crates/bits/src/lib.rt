// Bit fields, bytes and 64-bit words, SipHash-2-4 over them, and slices of bytes.
#![tactic(auto)]

pub mod siphash;
pub mod slice;
pub mod word;

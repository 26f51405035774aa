// Values as they are stored: the eight bytes of an f64's bits, the lowest first, and every NaN by one pattern.
use std::{io, num};

// The value that is stored.
pub fn f64_of(bytes: [u8; 8]) -> f64 {
    num::f64_from_bits_with_nan(u64::from_le_bytes(bytes))
}

// Whether v is the value that is stored.
pub fn is_stored(v: f64, bytes: [u8; 8]) -> bool {
    num::f64_to_bits_with_nan(v) == u64::from_le_bytes(bytes)
}

// A line that says how many were replayed, and how many of them differ.
pub fn report(rt: &impl Print, name: &str, count: usize, differing: usize) -> io::Result<()> {
    println!(rt; "{name}{count} replayed, {differing} differing")
}

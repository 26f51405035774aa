// A check sum of a step's values, in which each bit of each value counts.
use std::num::f64_to_bits_with_nan;

// The sum, gone on over one value.
pub fn with(sum: u64, value: f64) -> u64 {
    let bits = f64_to_bits_with_nan(value);
    (sum % 4294967296) * 65599 + bits % 4294967296 + bits / 4294967296
}

// The same over the values of a list.
pub fn over(start: u64, values: &[f64]) -> u64 {
    values.iter().fold(start, |sum, value| with(sum, *value))
}

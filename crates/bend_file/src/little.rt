// Numbers from bytes, the lowest byte first.
ghost use Rattle.std.specs.Prelude.{◌≡◌, ◌+◌, ◌≤◌, length, take, drop};
ghost use Rattle.bend_file.specs.Little as little;

use std::num::f64_from_bits_with_nan;

// The N bytes from `at` on, of which a number's own type makes the number.
pub fn bytes_at<const N: usize>(file: &[u8], at: usize) -> [u8; N]
    requires { at + N ≤ length file.now }
    ensures { result ≡ take N (drop at file.now) }
{
    let mut bytes = [0; N];
    bytes.copy_from_slice(&file[at..at + N]);
    bytes
}

// The f64 of these 8 bytes: every pattern of a NaN is read as the one NaN.
pub fn f64_at(file: &[u8], at: usize) -> f64
    requires { at + 8 ≤ length file.now }
    ensures { result ≡ little.value file.now at }
{
    let bits = u64::from_le_bytes(bytes_at(file, at));
    f64_from_bits_with_nan(bits)
}

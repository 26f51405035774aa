// A magnitude rounded to an f64.
ghost use Rattle.std.specs.Prelude.{◌≡◌, false, ◌+◌, ◌/◌, ◌^◌, ◌<◌, ◌≤◌};
ghost use Rattle.std.specs.Float.{binary64};
ghost use Rattle.std.specs.Float.Ieee.{of_bits, round};
ghost use Rattle.std.specs.Float.Ieee.Nearest.{closest};
ghost use Rattle.accumulator.specs.Accumulators.{value};

use crate::digits;
use accumulator::WORDS;

// The number without its last 1074 + k digits, moved up by one where these are more than half way, or half way and it is
// odd. The first of these digits says whether they are half way or more, and the others whether they are more.
fn kept(m: &[u64; WORDS], k: usize) -> u64
    requires { (k < 2046) × (value m.now / 2 ^ (1073 + k) < 18014398509481984) }
    ensures { (result ≡ closest (value m.now) (2 ^ (1074 + k))) × (result ≤ 9007199254740992) }
{
    let h = digits::without(m, 1073 + k);
    let q = h / 2;
    if h % 2 == 0 {
        return q;
    }
    if digits::any_of_last(m, 1073 + k) {
        return q + 1;
    }
    q + q % 2
}

// The pattern of the f64 nearest to the number in units of 2^-2148. A value is a whole number of 2^-1074, which is digit
// 1074 here, and has 53 digits at most. So a number of more than 1074 + 53 = 1127 digits drops k of them, and the first
// of the 53 kept adds one to the exponent's field. A number of more than 2148 + 1024 = 3172 digits is 2^1024 or more.
// One that rounds up to 2^1024 gets the infinity's pattern by the sum.
fn bits(m: &[u64; WORDS]) -> u64
    ensures { (of_bits binary64 result ≡ round binary64 false (value m.now) (2 ^ 2148))
        × (result ≤ 0x7ff0_0000_0000_0000) }
{
    let n = digits::size(m);
    if n > 3172 {
        return 0x7ff0_0000_0000_0000;
    }
    if n > 1127 {
        let k = n - 1127;
        return (k as u64) * 0x10_0000_0000_0000 + kept(m, k);
    }
    kept(m, 0)
}

// The f64 nearest to the number in units of 2^-2148.
pub fn rounded(m: &[u64; WORDS]) -> f64
    ensures { result ≡ round binary64 false (value m.now) (2 ^ 2148) }
{
    f64::from_bits(bits(m))
}

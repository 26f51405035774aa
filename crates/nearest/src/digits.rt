// The binary digits of a number in 67 words of 64, the lowest first.
ghost use Rattle.std.specs.Prelude.{◌≡◌, ◌+◌, ◌/◌, ◌%◌, ◌^◌, ◌<◌, not, eqb, ltb, get_or, drop};
ghost use Rattle.std.specs.List.{list_any};
ghost use Rattle.std.specs.Float.Ieee as ieee;
ghost use Rattle.accumulator.specs.Accumulators.{value};

use accumulator::WORDS;

// The highest word that is not 0, and word 0 where all are.
fn top(m: &[u64; WORDS]) -> usize
    ensures { (result < 67) × (value (drop (result + 1) m.now) ≡ 0) × (0 < result → 0 < get_or m.now result 0) }
{
    for j in (1..WORDS).rev() {
        if m[j] != 0 {
            return j;
        }
    }
    0
}

// How many digits the number has: none for 0.
pub fn size(m: &[u64; WORDS]) -> usize
    ensures { result ≡ ieee.size (value m.now) }
{
    let j = top(m);
    j * 64 + (64 - m[j].leading_zeros() as usize)
}

// The number without its last d digits, of which 54 or fewer are left: in two words.
pub fn without(m: &[u64; WORDS], d: usize) -> u64
    requires { (d < 4224) × (value m.now / 2 ^ d < 18014398509481984) }
    ensures { result ≡ value m.now / 2 ^ d }
{
    let w = d / 64;
    let pair = m[w] as u128 + ((m[w + 1] as u128) << 64);
    (pair >> (d % 64)) as u64
}

// Whether one of the words is not 0.
fn any(words: &[u64]) -> bool
    ensures { result ≡ list_any (λ w. not (eqb w 0)) words.now }
{
    words.iter().any(|word| *word != 0)
}

// Whether one of the last d digits is 1.
pub fn any_of_last(m: &[u64; WORDS], d: usize) -> bool
    requires { d < 4288 }
    ensures { result ≡ ltb 0 (value m.now % 2 ^ d) }
{
    let w = d / 64;
    m[w] % (1 << (d % 64)) != 0 || any(&m[..w])
}

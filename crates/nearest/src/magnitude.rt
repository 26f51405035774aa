// The magnitude of a negative number in two's complement.
ghost use Rattle.std.specs.Prelude.{◌≡◌, ◌-◌, ◌<◌, leb};
ghost use Rattle.accumulator.specs.Accumulators as acc;

use accumulator::WORDS;

// Whether the words mean a negative number.
pub fn is_negative(words: &[u64; WORDS]) -> bool
    ensures { (result ≡ leb acc.half (acc.value words.now)) × (acc.value words.now < acc.size) }
{
    words[WORDS - 1] >= 0x8000_0000_0000_0000
}

// The words of 2^4288 less the number of `words`, which is not 0: they are taken from 0, and the top word owes 2^4288.
pub fn negated(words: &[u64; WORDS]) -> [u64; WORDS]
    requires { 0 < acc.value words.now }
    ensures { acc.value result ≡ acc.size - acc.value words.now }
{
    let mut left = [0; WORDS];
    let mut borrow = false;
    for (i, word) in words.iter().enumerate() {
        (left[i], borrow) = 0u64.borrowing_sub(*word, borrow);
    }
    left
}

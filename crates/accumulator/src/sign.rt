// The sign of the whole number that 67 words mean.
ghost use Rattle.std.specs.Prelude.{◌≡◌, eqb};
ghost use Rattle.std.specs.List.{list_all};
ghost use Rattle.accumulator.specs.Accumulators as acc;

use crate::{Accumulator, WORDS};

// Whether every word is 0.
fn is_zero(words: &[u64; WORDS]) -> bool
    ensures { result ≡ list_all (λ w. eqb w 0) words.now }
{
    words.iter().all(|word| *word == 0)
}

impl Accumulator {
    // The sign of the exact sum: -1, 0 or 1. Below 0 the top bit is set; above 0 any other may be the only one.
    // It stays a number, as signum gives one in Rust: the C interface passes it on, and would turn an Ordering back.
    pub fn sign(self) -> i8
        ensures { result ≡ acc.sign_of (acc.meaning self.words) }
    {
        let words = self.words;
        if words[WORDS - 1] >= 0x8000_0000_0000_0000 {
            -1
        } else if is_zero(&words) {
            0
        } else {
            1
        }
    }
}

// The f64 nearest to an exact row sum, from the 67 words of a Kulisch (long) accumulator.
#![tactic(auto)]

ghost use Rattle.std.specs.Prelude.{◌≡◌};
ghost use Rattle.accumulator.specs.Accumulators as acc;
ghost use Rattle.nearest.specs.ToNearest as def;

mod digits;
mod magnitude;
mod pattern;

use accumulator::WORDS;

// The f64 nearest to the whole number of 2^-2148 that the words mean, whatever they are: ties to even, a zero result +0,
// an overflow an infinity.
pub fn nearest(words: &[u64; WORDS]) -> f64
    ensures { result ≡ def.nearest (acc.meaning words.now) }
{
    if magnitude::is_negative(words) {
        return plus_zero(-pattern::rounded(&magnitude::negated(words)));
    }
    plus_zero(pattern::rounded(words))
}

// v, and +0 where v is a zero of either sign.
#[tactic(auto, unfolding(crate::specs::ToNearest::plus_zero))]
fn plus_zero(v: f64) -> f64
    ensures { result ≡ def.plus_zero v }
{
    if v == 0.0 {
        return 0.0;
    }
    v
}

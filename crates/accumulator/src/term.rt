// Terms: a free motion or a product as a whole number, a number of places that it stands higher, and a sign.
ghost use Rattle.std.specs.Prelude.{◌≡◌, ◌*◌, ◌^◌, ◌<◌, ◌&&◌, true, false, MatchResult};
ghost use Rattle.floats.specs.Helpers.{is_finite};
ghost use Rattle.refusals.specs.declared.Refusal.TheVariants.{NotFinite};
ghost use Rattle.accumulator.specs.Accumulators as acc;
ghost use Rattle.accumulator.specs.Steps as steps;

use crate::WORDS;
use crate::words::{self, Minus, Plus};
use refusals::Refusal;

// The lowest bit of a pattern's exponent, which is where the leading digit stands, and the bit of its sign.
const LEADING: u64 = 0x10_0000_0000_0000;

const SIGN: u64 = 0x8000_0000_0000_0000;

// A finite value: digits * 2^places units of 2^-1074, below 0 where negative. The sign stays beside the digits, as in a
// pattern: signed digits would be taken apart again where words are added or taken away.
#[derive(Clone, Copy)]
struct Scaled {
    negative: bool,
    digits: u64,
    places: u32,
}

// From the magnitude's pattern, which is the exponent's field and 52 digits: a leading digit stands above them unless
// the field is 0.
#[tactic(auto, using(crate::proofs::Patterns::small_scales, crate::proofs::Patterns::large_scales))]
fn of_magnitude(negative: bool, magnitude: u64) -> Scaled
    requires { magnitude < 0x7ff0_0000_0000_0000 }
    ensures { steps.Scales (steps.pattern negative magnitude) result }
{
    if magnitude < LEADING {
        return Scaled {
            negative,
            digits: magnitude,
            places: 0,
        };
    }
    Scaled {
        negative,
        digits: magnitude % LEADING + LEADING,
        places: (magnitude / LEADING - 1) as u32,
    }
}

// A value in units of 2^-1074, where it is finite.
fn units(v: f64) -> Result<Scaled, Refusal>
    ensures { MatchResult result (λ x. (is_finite v ≡ true) × steps.Scales v x)
        (λ r. (r ≡ NotFinite) × (is_finite v ≡ false)) }
{
    if !floats::is_finite(v) {
        return Err(Refusal::NotFinite);
    }
    let bits = v.to_bits();
    Ok(of_magnitude(bits >= SIGN, bits % SIGN))
}

// The number digits * 2^places is added, or taken away where negative. Shifted by up to 63 bits its digits have three
// words.
fn add(words: &mut [u64; WORDS], negative: bool, digits: u128, places: u32)
    requires { places < 4160 }
    ensures { words.new ≡ acc.added words.old (acc.signed negative (digits * 2 ^ places)) }
{
    let k = (places / 64) as usize;
    let b = places % 64;
    let (low, middle) = words::halves(digits << b);
    let terms = [low, middle, (digits >> 1 >> (127 - b)) as u64];
    if negative {
        words::add::<Minus>(words, k, &terms);
    } else {
        words::add::<Plus>(words, k, &terms);
    }
}

// A free motion: 2^1074 units for each 2^-1074.
pub fn add_free(words: &mut [u64; WORDS], u: f64) -> Result<(), Refusal>
    ensures { MatchResult result
        (λ _. (is_finite u ≡ true) × (words.new ≡ acc.added words.old (acc.free_term u)))
        (λ r. (r ≡ NotFinite) × (is_finite u ≡ false) × (words.new ≡ words.old)) }
{
    let x = units(u)?;
    add(words, x.negative, x.digits as u128, x.places + 1074);
    Ok(())
}

// A product.
pub fn add_product(words: &mut [u64; WORDS], w: f64, nu: f64) -> Result<(), Refusal>
    ensures { MatchResult result
        (λ _. (is_finite w && is_finite nu ≡ true) × (words.new ≡ acc.added words.old (acc.product_term w nu)))
        (λ r. (r ≡ NotFinite) × (is_finite w && is_finite nu ≡ false) × (words.new ≡ words.old)) }
{
    let x = units(w)?;
    let y = units(nu)?;
    add(
        words,
        x.negative != y.negative,
        x.digits as u128 * y.digits as u128,
        x.places + y.places,
    );
    Ok(())
}

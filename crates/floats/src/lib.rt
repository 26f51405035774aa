// Document 01's float helpers and the square root of an f64. Each call is total, and its contract is an equation with a
// definition of specs/.
#![tactic(auto)]

ghost use Rattle.std.specs.Prelude.{◌≡◌};
ghost use Rattle.floats.specs.Helpers as helpers;
ghost use Rattle.floats.specs.Rough as rough;
ghost use Rattle.floats.specs.Sqrt as root;

mod root;

use root::{INFINITY_BITS, Positive};

// The side at which a clamp stops a value: at its lower bound, or at its upper one.
#[derive(Clone, Copy, PartialEq, Eq)]
pub enum Side {
    Low,
    High,
}

// A value put into its box, and the side at which it was stopped, where it was.
#[derive(Clone, Copy)]
pub struct Clamped {
    pub value: f64,
    pub side: Option<Side>,
}

// lo if v < lo, else hi if v > hi, else v: also for bounds that are NaN, infinite or inverted. Only a value that is
// replaced by a bound is stopped: one that equals a bound is not.
#[tactic(auto, unfolding(crate::specs::Helpers::clamp, crate::specs::Helpers::side))]
pub fn clamp(v: f64, lo: f64, hi: f64) -> Clamped
    ensures { (result.value ≡ helpers.clamp v lo hi) × (result.side ≡ helpers.side v lo hi) }
{
    if v < lo {
        return Clamped {
            value: lo,
            side: Some(Side::Low),
        };
    }
    if v > hi {
        return Clamped {
            value: hi,
            side: Some(Side::High),
        };
    }
    Clamped {
        value: v,
        side: None,
    }
}

// The larger of two: the one that isn't NaN, NaN if both are, and of +0 and -0 +0.
#[tactic(auto, using(crate::proofs::Library::larger_equal, crate::proofs::Library::larger_unequal))]
pub fn larger(x: f64, y: f64) -> f64
    ensures { result ≡ helpers.larger x y }
{
    if x == y {
        return if x == 0.0 { x + y } else { x };
    }
    x.max(y)
}

// v without its sign.
#[tactic(auto, using(crate::proofs::Library::abs_library))]
pub fn abs(v: f64) -> f64
    ensures { result ≡ helpers.abs v }
{
    v.abs()
}

#[tactic(auto, using(crate::proofs::Meaning::nan_test_is_nan))]
pub fn is_nan(v: f64) -> bool
    ensures { result ≡ helpers.nan_test v }
{
    v.is_nan()
}

// Neither NaN nor an infinity.
#[tactic(auto, using(crate::proofs::Library::is_finite_library))]
pub fn is_finite(v: f64) -> bool
    ensures { result ≡ helpers.is_finite v }
{
    v.is_finite()
}

// The square root of v, with a guess at it. The guess saves time where it is good.
fn sqrt_guessed(v: f64, near: Option<f64>) -> f64
    ensures { result ≡ root.sqrt v }
{
    if v > 0.0 {
        let b = v.to_bits();
        if b < INFINITY_BITS {
            return f64::from_bits(Positive { bits: b }.root_bits(near));
        }
        return v;
    }
    if v == 0.0 {
        return v;
    }
    f64::NAN
}

// The square root of v, rounded to nearest: of ±0 and +∞ that number, of NaN and negatives NaN.
pub fn sqrt(v: f64) -> f64
    ensures { result ≡ root.sqrt v }
{
    sqrt_guessed(v, None)
}

// The same, sooner where near is at most a little off. A guess that is not positive is passed over.
pub fn sqrt_near(v: f64, near: Option<f64>) -> f64
    ensures { result ≡ root.sqrt v }
{
    sqrt_guessed(v, near.filter(|guess| *guess > 0.0))
}

// A rough square root of v for `sqrt_near`, where v is positive and finite. It can be found early, while the value that
// it is near to is awaited.
#[tactic(auto, using(crate::proofs::SquareRoot::Branches::no_nan), unfolding(crate::specs::Rough::rough))]
pub fn sqrt_rough(v: f64) -> Option<f64>
    ensures { result ≡ rough.rough v }
{
    if v > 0.0 {
        let b = v.to_bits();
        if b < INFINITY_BITS {
            return Some(Positive { bits: b }.approximate());
        }
    }
    None
}

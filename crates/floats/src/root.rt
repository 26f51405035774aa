// The pattern of the root of a positive finite f64, from its pattern. A guess by products finds the first 27 digits of
// the root, an exact division the other 27; a guess that does not serve costs time and nothing else, since the root is
// then found in whole numbers.
// `f64::sqrt` stays out: it takes the processor's root on trust, and this takes only sums, products and quotients so.
ghost use Rattle.std.specs.Prelude.{◌≡◌, ◌*◌, ◌^◌, ◌<◌, IfSome};
ghost use Rattle.std.specs.Float.{binary64};
ghost use Rattle.std.specs.Float.Ieee.{of_bits};
ghost use Rattle.floats.specs.Rough as rough;
ghost use Rattle.floats.specs.Sqrt as root;
ghost use Rattle.floats.specs.Private as private;

// What a pattern has for the leading digit of a normal value, which it leaves out.
const HIDDEN_BIT: u64 = 0x10_0000_0000_0000;

// The pattern of the infinity.
pub const INFINITY_BITS: u64 = 0x7ff0_0000_0000_0000;

// A whole number s of at most 54 digits, of whose 2^54-fold the root is looked for.
#[derive(Clone, Copy)]
struct Radicand {
    s: u64,
    ghost few: { s < 2 ^ 54 },
}

impl Radicand {
    // The whole part of √(s * 2^54).
    fn digits(self) -> u64
        ensures { private.Whole (self.s * 2 ^ 54) result }
    {
        (u128::from(self.s) << 54).isqrt() as u64
    }

    // The same from a guess a at the whole part of √s, where that is good: s = a * a + u with u <= 2 * a. Then b, 27
    // more digits, come by a division, as s * 2^54 = (a * 2^27 + b)^2 + w * 2^27 - b * b.
    fn refined(self, a: u64) -> Option<u64>
        ensures { IfSome result (private.Whole (self.s * 2 ^ 54)) }
    {
        if !(0x400_0000..0x800_0000).contains(&a) {
            return None;
        }
        let u = self.s.checked_sub(a * a)?;
        let d = 2 * a;
        if d < u {
            return None;
        }
        let y = u * 0x800_0000;
        let b = y / d;
        let w = y - b * d;
        let p = a * 0x800_0000 + b;
        Some(if b * b <= w * 0x800_0000 { p } else { p - 1 })
    }

    // The same, from any guess. The guess by products is right or one too high: then one less is tried, since the root in
    // whole numbers takes many times as long.
    fn refine(self, a: u64) -> u64
        ensures { private.Whole (self.s * 2 ^ 54) result }
    {
        self.refined(a)
            .or_else(|| self.refined(a.saturating_sub(1)))
            .unwrap_or_else(|| self.digits())
    }

    // The same, from a near guess where there is one that serves, or else from the guess by products, of the root of
    // `about_one`, which has the same digits.
    fn root(self, near: Option<f64>, about_one: Positive) -> u64
        ensures { private.Whole (self.s * 2 ^ 54) result }
    {
        near.and_then(|guess| self.refined(leading(guess)))
            .unwrap_or_else(|| self.refine(leading(about_one.approximate())))
    }
}

// The first 27 digits of a positive value. Nothing is promised of them.
fn leading(g: f64) -> u64 {
    if g > 0.0 {
        (g.to_bits() % HIDDEN_BIT + HIDDEN_BIT) / 0x400_0000
    } else {
        0
    }
}

// The pattern of a positive finite value.
#[derive(Clone, Copy)]
pub struct Positive {
    pub bits: u64,
    pub ghost positive: { 0 < bits },
    pub ghost finite: { bits < 0x7ff0_0000_0000_0000 },
}

impl Positive {
    // A guess at the root of the value: three steps of Newton's method for 1 / √x, each written so that its products do
    // not wait for each other. No root depends on it; the constant of the last step is a little above 1.5 so that a root
    // that is a whole number is not guessed one too low.
    #[tactic(auto, using(crate::proofs::SquareRoot::Branches::finite_bits), unfolding(crate::specs::Rough::approximated, crate::specs::Rough::newton))]
    pub fn approximate(self) -> f64
        ensures { result ≡ rough.approximate self.bits }
    {
        let x = self.bits;
        let v = f64::from_bits(x);
        let h = v * 0.5;
        let y0 = f64::from_bits(0x5fe6_eb50_c7b5_37a9 - x / 2);
        let y1 = 1.5 * y0 - h * y0 * (y0 * y0);
        let y2 = 1.5 * y1 - h * y1 * (y1 * y1);
        let y3 = 1.50000000004 * y2 - h * y2 * (y2 * y2);
        v * y3
    }

    // s and e, for which the value is s * 2^e times 2^-2148, with 2^52 <= s < 2^53.
    fn scaled(self) -> (u64, u64)
        ensures { private.Scaled self.bits result.0 result.1 }
    {
        let b = self.bits;
        if b < HIDDEN_BIT {
            let z = u64::from(b.leading_zeros()) - 11;
            return (b << z, 1074 - z);
        }
        (b % HIDDEN_BIT + HIDDEN_BIT, b / HIDDEN_BIT + 1073)
    }

    // The pattern of the value's root, which may be guessed to be near.
    pub fn root_bits(self, near: Option<f64>) -> u64
        ensures { (of_bits binary64 result ≡ root.sqrt (of_bits binary64 self.bits)) × (result < INFINITY_BITS) }
    {
        let (s, e) = self.scaled();
        let even = Radicand { s: s << (e % 2) };
        let about_one = Positive {
            bits: (1074 + e % 2) * HIDDEN_BIT + s,
        };
        // p has 54 digits, and the last rounds
        let p = even.root(near, about_one);
        (e / 2 - 26) * HIDDEN_BIT + (p + 1) / 2
    }
}

// K adjacent entries together, which the compiler keeps in registers. Each is computed as by itself.
// The place stays beside the list: K entries lent as an array (`first_chunk`) were tried, and the least norm of two
// rows took 128 ns for 122, of eight 1096 for 1051, where a solve of two rows takes .95 of the original's time, the
// most allowed.
#![tactic(auto, using(crate::proofs::Laws::updates))]

ghost use Rattle.std.specs.Prelude.{◌≡◌, ℕ, ◌+◌, ◌≤◌, length, replicate, Float};
ghost use Rattle.std.specs.Float.{nan};
ghost use Rattle.loops.specs.Updates.{updated};
ghost use Rattle.floats.specs.Ops.{at, 0ᶠ, 2ᶠ, ◌⊕◌, ◌⊖◌, ◌⊗◌, ◌⊘◌};

use std::array;

// f * x[p], f * x[p + 1], ..
pub fn scaled<const K: usize>(f: f64, x: &[f64], p: usize) -> [f64; K]
    requires { p + K ≤ length x.now }
    ensures { result
        ≡ updated nan (λ (t : ℕ). t) (λ (t : ℕ) (v : Float). f ⊗ at x.now (p + t)) 0 K (replicate K 0ᶠ) }
{
    array::from_fn(|t| f * x[p + t])
}

// s[0] + f * x[p], s[1] + f * x[p + 1], .. By index, here and in add_squares: `array::from_fn` was tried, and the proof
// of its closure, which reads s as well, did not close without a contract of the closure's own.
pub fn add_scaled<const K: usize>(mut s: [f64; K], f: f64, x: &[f64], p: usize) -> [f64; K]
    requires { p + K ≤ length x.now }
    ensures { result
        ≡ updated nan (λ (t : ℕ). t) (λ (t : ℕ) (v : Float). v ⊕ f ⊗ at x.now (p + t)) 0 K s.entry }
{
    for t in 0..K {
        s[t] = s[t] + f * x[p + t];
    }
    s
}

// s[0] + x[p] * x[p], ..
pub fn add_squares<const K: usize>(mut s: [f64; K], x: &[f64], p: usize) -> [f64; K]
    requires { p + K ≤ length x.now }
    ensures { result
        ≡ updated nan (λ (t : ℕ). t)
        (λ (t : ℕ) (v : Float). v ⊕ at x.now (p + t) ⊗ at x.now (p + t)) 0 K s.entry }
{
    for t in 0..K {
        s[t] = s[t] + x[p + t] * x[p + t];
    }
    s
}

// 2 * s[0] / d, ..
pub fn factors<const K: usize>(mut s: [f64; K], d: f64) -> [f64; K]
    ensures { result ≡ updated nan (λ (t : ℕ). t) (λ (t : ℕ) (v : Float). 2ᶠ ⊗ v ⊘ d) 0 K s.entry }
{
    for v in &mut s {
        *v = 2.0 * *v / d;
    }
    s
}

// x[p] -= f[0] * y, x[p + 1] -= f[1] * y, ..
pub fn less_lanes<const K: usize>(x: &mut [f64], p: usize, f: [f64; K], y: f64)
    requires { p + K ≤ length x.old }
    ensures { x.new
        ≡ updated nan (λ (t : ℕ). p + t) (λ (t : ℕ) (v : Float). v ⊖ at f.entry t ⊗ y) 0 K x.old }
{
    for (t, factor) in f.iter().enumerate() {
        x[p + t] = x[p + t] - *factor * y;
    }
}

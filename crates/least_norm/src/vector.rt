// Sums over the entries t of two lists, for t from lo up to hi. Each runs upward in index.
#![tactic(auto, using(crate::proofs::Laws::sums))]

ghost use Rattle.std.specs.Prelude.{◌≡◌, ℕ, ◌≤◌, length};
ghost use Rattle.floats.specs.Ops.{at, ◌⊗◌};
ghost use Rattle.floats.specs.Sums.{sum, difference};
ghost use Rattle.least_norm.specs.Private.{Part, less};

// s + x[lo] * y[lo] + ..
pub fn dot(s: f64, x: &[f64], y: &[f64], lo: usize, hi: usize) -> f64
    requires { Part x.now lo hi × Part y.now lo hi }
    ensures { result ≡ sum s (λ (t : ℕ). at x.now t ⊗ at y.now t) lo hi }
{
    let mut r = s;
    for (a, b) in x[lo..hi].iter().zip(&y[lo..hi]) {
        r = r + *a * *b;
    }
    r
}

// s - x[lo] * y[lo] - .. Apart from `dot`: it differs in an operation, and a trait for the two would be longer than
// both.
pub fn less_dot(s: f64, x: &[f64], y: &[f64], lo: usize, hi: usize) -> f64
    requires { Part x.now lo hi × Part y.now lo hi }
    ensures { result ≡ difference s (λ (t : ℕ). at x.now t ⊗ at y.now t) lo hi }
{
    let mut r = s;
    for (a, b) in x[lo..hi].iter().zip(&y[lo..hi]) {
        r = r - *a * *b;
    }
    r
}

// x[t] -= f * y[t], for t from lo on.
#[tactic(auto, using(crate::proofs::Laws::updates), unfolding(crate::specs::Private::less))]
pub fn less_scaled(x: &mut [f64], f: f64, y: &[f64], lo: usize)
    requires { (lo ≤ length x.old) × (length x.old ≤ length y.now) }
    ensures { x.new ≡ less (λ (t : ℕ). t) f (λ (t : ℕ). at y.now t) lo (length x.old) x.old }
{
    // By index: the library's contract does not state what `iter_mut().zip(..)` writes (tried), and with
    // `iter_mut().enumerate()` y would be indexed all the same.
    for t in lo..x.len() {
        x[t] = x[t] - f * y[t];
    }
}

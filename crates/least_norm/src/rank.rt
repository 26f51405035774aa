// The rank: how many leading diagonal entries are above 1e-11 of the first.
ghost use Rattle.std.specs.Prelude.{◌≡◌, ◌≤◌, ◌<◌};
ghost use Rattle.least_norm.specs.LeastNorm as least;
ghost use Rattle.least_norm.specs.Private as private;

use crate::RANK_TOLERANCE;
use crate::size::MatrixView;

#[tactic(auto, unfolding(crate::specs::Private::leads))]
fn leads(a: &MatrixView, i: usize) -> bool
    requires { (i < a.now.size.m) × (i < a.now.size.n) }
    ensures { result ≡ private.leads a.now.size.n a.now.entries.now i }
{
    let largest = floats::abs(a.entries[0]);
    let this = floats::abs(a.at(i, i));
    this > RANK_TOLERANCE * largest
}

// How many of the first k entries lead before one does not.
pub fn leading(a: &MatrixView, k: usize) -> usize
    requires { (k ≤ a.now.size.m) × (k ≤ a.now.size.n) }
    ensures { (result ≡ least.leading a.now.size.n a.now.entries.now k) × (result ≤ k) }
{
    for i in 0..k {
        if !leads(a, i) {
            return i;
        }
    }
    k
}

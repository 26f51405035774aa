// T w = c by back substitution, then the reflectors from the right, then the columns' order. `t` is the trapezoid: as
// many rows as the rank. y stays beside it, its length in each contract: it is written, and a struct that held it as a
// `&mut` would have each function promise that the reference stays.
ghost use Rattle.std.specs.Prelude.{◌≡◌, ◌≤◌, ◌<◌, length};
ghost use Rattle.least_norm.specs.LeastNorm as least;
ghost use Rattle.least_norm.specs.Starts as starts;
ghost use Rattle.least_norm.specs.Private as private;
ghost use Rattle.least_norm.specs.Private.{Onto, Substituting, Turning};

use crate::reflect::Reflector;
use crate::size::MatrixView;
use crate::{trapezoid, vector};

// The columns' order: column columns[j] stands at place j, and each column at one.
#[derive(Clone, Copy)]
pub struct Permutation<'a> {
    pub columns: &'a [u8],
    pub ghost onto: { ∥ Onto (length columns.now) columns.now ∥₁ },
}

// What row i leaves of b once the entries of y after i are known.
fn known(t: &MatrixView, b: &[f64], y: &[f64], i: usize) -> f64
    requires { Substituting t.now.size b.now y.now × (i < t.now.size.m) }
    ensures { result ≡ private.known t.now.size.n t.now.size.m t.now.entries.now b.now y.now i }
{
    vector::less_dot(b[i], t.row(i), y, i + 1, t.size.m)
}

// What stands in y past the rank stays.
#[tactic(auto, using(crate::proofs::Laws::substitutions))]
pub fn substitute(t: &MatrixView, b: &[f64], y: &mut [f64])
    requires { Substituting t.now.size b.now y.old }
    ensures { y.new ≡ starts.substituted y.old t.now.size.n t.now.size.m t.now.entries.now b.now 0 }
{
    for i in (0..t.size.m).rev() {
        y[i] = known(t, b, y, i) / t.at(i, i);
    }
}

// Reflector i, which row i of `right` keeps, applied to y.
#[tactic(auto, using(crate::proofs::Rows::turn_run), unfolding(crate::specs::Private::turn))]
fn turn(right: &MatrixView, i: usize, y: &mut [f64])
    requires { Turning right.now.size y.old × (i < right.now.size.m) }
    ensures { y.new ≡ private.turn right.now.size.n right.now.size.m right.now.entries.now i y.old }
{
    let u0 = right.at(i, i);
    let utu = trapezoid::row_norm2(right, i, u0 * u0);
    if utu == 0.0 {
        return;
    }
    let u = Reflector {
        v: right.row(i),
        first: i,
        rest: right.size.m,
        vtv: utu,
    };
    u.reflect(y);
}

fn turn_each(right: &MatrixView, y: &mut [f64])
    requires { Turning right.now.size y.old }
    ensures { y.new ≡ least.turned right.now.size.n right.now.size.m right.now.entries.now y.old right.now.size.m }
{
    for i in 0..right.size.m {
        turn(right, i, y);
    }
}

// Every reflector applied to y; at full rank there is none.
#[tactic(auto, unfolding(crate::specs::LeastNorm::turned, crate::specs::Private::first_turned, loops::specs::Loops::turns))]
pub fn turn_back(right: &MatrixView, y: &mut [f64])
    requires { Turning right.now.size y.old }
    ensures { y.new
        ≡ least.turned right.now.size.n right.now.size.m right.now.entries.now y.old
        (private.first_turned right.now.size.n right.now.size.m) }
{
    if right.size.m < right.size.n {
        turn_each(right, y);
    }
}

// Entry j of y is x's entry in the column that stands at place j.
pub fn unpermute(perm: &[u8], y: &[f64], x: &mut [f64])
    requires { (length y.now ≡ length perm.now) × (length perm.now ≤ 32) }
    ensures { x.new
        ≡ starts.unpermuted x.old perm.now y.now (length perm.now) }
{
    for (p, v) in perm.iter().zip(y) {
        let p = usize::from(*p);
        if p < x.len() {
            x[p] = *v;
        }
    }
}

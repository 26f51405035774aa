// [R₁₁ R₁₂] Z = [T 0]: each row's entries past the rank are cleared by a reflector from the right, from the last row
// up. Row i of `right` keeps reflector i. `top` is the trapezoid's size: as many rows as the rank. a and right stay
// beside it, as they are written, for the reason that Size has.
ghost use Rattle.std.specs.Prelude.{◌≡◌, suc, ◌*◌, ◌≤◌, ◌<◌, length, replicate};
ghost use Rattle.floats.specs.Ops.{0ᶠ};
ghost use Rattle.least_norm.specs.LeastNorm as least;
ghost use Rattle.least_norm.specs.Private as private;
ghost use Rattle.least_norm.specs.Private.{Trapezoidal};

use crate::reflect::Reflector;
use crate::size::{MatrixView, Size};
use crate::{reflect, vector};

// Row `row` reflected.
fn reflect_row(a: &mut [f64], u: &Reflector, row: usize)
    requires { (row ≤ u.now.first) × (suc u.now.first * length u.now.v.now ≤ length a.old) }
    ensures { a.new ≡ private.reflect_row u.now.v.now u.now.first u.now.rest u.now.vtv row a.old }
{
    let n = u.v.len();
    u.reflect(&mut a[row * n..row * n + n]);
}

// Each row down to the reflector's own.
fn reflect_rows(a: &mut [f64], u: &Reflector)
    requires { suc u.now.first * length u.now.v.now ≤ length a.old }
    ensures { a.new ≡ private.reflect_rows u.now.v.now u.now.first u.now.rest u.now.vtv a.old (suc u.now.first) }
{
    for row in 0..u.first + 1 {
        reflect_row(a, u, row);
    }
}

// s plus the squares of row i past the rank.
pub fn row_norm2(t: &MatrixView, i: usize, s: f64) -> f64
    requires { (t.now.size.m ≤ t.now.size.n) × (i < t.now.size.m) }
    ensures { result ≡ private.row_norm2 t.now.size.n t.now.size.m i t.now.entries.now s }
{
    let row = t.row(i);
    vector::dot(s, row, row, t.size.m, t.size.n)
}

// Keeps in `right` row i past the rank.
#[tactic(auto, using(crate::proofs::Laws::updates), unfolding(crate::specs::Private::kept_row))]
fn keep_row(t: &MatrixView, i: usize, right: &mut [f64])
    requires { Trapezoidal t.now.entries.now t.now.size right.old × (i < t.now.size.m) }
    ensures { right.new ≡ private.kept_row t.now.size.n t.now.size.m i t.now.entries.now right.old }
{
    // By index, as vector::less_scaled is: `copy_from_slice` compiles to memmove here, and C is asked for memcpy and
    // memset alone.
    for c in t.size.m..t.size.n {
        right[t.size.place(i, c)] = t.at(i, c);
    }
}

// Clears row i past the rank.
#[tactic(auto, unfolding(crate::specs::Private::clear))]
fn clear_row(a: &mut [f64], top: Size, i: usize, right: &mut [f64])
    requires { Trapezoidal a.old top right.old × (i < top.m) }
    ensures { least.trapezoid a.new right.new
        ≡ private.clear top.n top.m i (least.trapezoid a.old right.old) }
{
    let t = MatrixView {
        entries: a,
        size: top,
    };
    let alpha = t.at(i, i);
    let sigma = row_norm2(&t, i, 0.0);
    if sigma == 0.0 {
        return;
    }
    let u0 = alpha - reflect::beta(alpha, sigma, None);
    right[top.place(i, i)] = u0;
    keep_row(&t, i, right);
    let kept = MatrixView {
        entries: right,
        size: top,
    };
    let u = Reflector {
        v: kept.row(i),
        first: i,
        rest: top.m,
        vtv: u0 * u0 + sigma,
    };
    reflect_rows(a, &u);
}

fn clear_rows(a: &mut [f64], top: Size, right: &mut [f64])
    requires { Trapezoidal a.old top right.old × (right.old ≡ replicate (top.m * top.n) 0ᶠ) }
    ensures { least.trapezoid a.new right.new ≡ least.cleared top.n top.m a.old 0 }
{
    for i in (0..top.m).rev() {
        clear_row(a, top, i, right);
    }
}

// The whole trapezoid; at full rank there is nothing to clear.
#[tactic(auto, unfolding(crate::specs::LeastNorm::cleared, crate::specs::Private::last_cleared, loops::specs::Loops::downward, loops::specs::Loops::turns))]
pub fn clear(a: &mut [f64], top: Size, right: &mut [f64])
    requires { Trapezoidal a.old top right.old }
    ensures { least.trapezoid a.new right.new
        ≡ least.cleared top.n top.m a.old (private.last_cleared top.n top.m) }
{
    right.fill(0.0);
    if top.m < top.n {
        clear_rows(a, top, right);
    }
}

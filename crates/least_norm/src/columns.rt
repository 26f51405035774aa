// A column's reflector, applied to the columns after it and to b. The reflector is copied to v, entry by row, and K
// adjacent columns are reflected together, row by row: each scalar keeps its operations and their order.
// Bounds as `c + K ≤ n` and `j < m` stay in the contracts: the index is another at each call, so a type that held it
// with its bound would be made anew for each.
ghost use Rattle.std.specs.Prelude.{◌≡◌, List, ℕ, suc, ◌+◌, ◌*◌, ◌≤◌, ◌<◌, length, Float};
ghost use Rattle.std.specs.Float.{nan};
ghost use Rattle.loops.specs.Loops.{between};
ghost use Rattle.loops.specs.Updates.{updated};
ghost use Rattle.floats.specs.Ops.{at};
ghost use Rattle.least_norm.specs.LeastNorm as least;
ghost use Rattle.least_norm.specs.Blocks as blocks;
ghost use Rattle.least_norm.specs.Private as private;
ghost use Rattle.least_norm.specs.Private.{Down, Matrix, Reflects};

use crate::reflect::Reflector;
use crate::size::{MatrixView, Size};
use crate::{Householder, MAX_SIZE, lanes, reflect, vector};

// Column j from row j down, copied to v.
#[tactic(auto, using(crate::proofs::Laws::updates))]
fn copy_column(a: &MatrixView, j: usize, v: &mut [f64; MAX_SIZE])
    requires { (j < a.now.size.n) × (j ≤ a.now.size.m) }
    ensures { v.new
        ≡ updated nan (λ (row : ℕ). row)
        (λ (row : ℕ) (x : Float). at a.now.entries.now (row * a.now.size.n + j)) j a.now.size.m v.old }
{
    for row in j..a.size.m {
        v[row] = a.at(row, j);
    }
}

// Column j's reflector, left in v from row j down. The column's norm may be guessed to be near.
fn householder(a: &MatrixView, j: usize, v: &mut [f64; MAX_SIZE], near: Option<f64>) -> Householder
    requires { (j < a.now.size.n) × (j < a.now.size.m) }
    ensures { Reflects a.now.entries.now a.now.size.m a.now.size.n j result v.new }
{
    copy_column(a, j, v);
    let column: &[f64] = v;
    let alpha = column[j];
    let sigma = vector::dot(0.0, column, column, j + 1, a.size.m);
    let beta = reflect::beta(alpha, sigma, near);
    let v0 = alpha - beta;
    v[j] = v0;
    Householder {
        beta,
        vtv: v0 * v0 + sigma,
    }
}

// Adds to s the products of h's entries, but its first, with K columns from column c on.
fn add_products<const K: usize>(
    mut s: [f64; K],
    a: &MatrixView,
    c: usize,
    h: &Reflector,
) -> [f64; K]
    requires { (length h.now.v.now ≡ a.now.size.m) × (c + K ≤ a.now.size.n) }
    ensures { result
        ≡ blocks.products a.now.entries.now a.now.size.n c K h.now.v.now s.entry h.now.rest a.now.size.m }
{
    for row in h.rest..a.size.m {
        s = lanes::add_scaled(s, h.v[row], a.entries, a.size.place(row, c));
    }
    s
}

// The factors of K columns from column c on: 2 * (v · column) / vᵀv.
fn column_factors<const K: usize>(a: &MatrixView, c: usize, h: &Reflector) -> [f64; K]
    requires { (length h.now.v.now ≡ a.now.size.m) × (c + K ≤ a.now.size.n) }
    ensures { (t : ℕ) → t < K
        → at result t
        ≡ private.factor (h.now.first * a.now.size.n + (c + t)) (λ (row : ℕ). row * a.now.size.n + (c + t))
        (at h.now.v.now h.now.first) (λ (row : ℕ). at h.now.v.now row) h.now.vtv h.now.rest
        a.now.size.m a.now.entries.now }
{
    let first: [f64; K] = lanes::scaled(h.v[h.first], a.entries, a.size.place(h.first, c));
    lanes::factors(add_products(first, a, c, h), h.vtv)
}

// Each row from h's first down less the factors f of its K entries from column c on times h's entry.
fn less_rows<const K: usize>(a: &mut [f64], size: Size, c: usize, h: &Reflector, f: [f64; K])
    requires { Matrix a.old size × (length h.now.v.now ≡ size.m) × (c + K ≤ size.n) }
    ensures { a.new ≡ blocks.less_rows size.n c K h.now.v.now f.entry a.old h.now.first size.m }
{
    for row in h.first..size.m {
        lanes::less_lanes(a, size.place(row, c), f, h.v[row]);
    }
}

// H applied to K columns from column c on.
fn reflect_lanes<const K: usize>(a: &mut [f64], size: Size, c: usize, h: &Reflector)
    requires { Matrix a.old size × Down h.now size × (c + K ≤ size.n) × (0 < K) }
    ensures { a.new
        ≡ between c (c + K) a.old
        (private.reflect_column size.m size.n h.now.first (at h.now.v.now h.now.first)
        (λ (row : ℕ). at h.now.v.now row) h.now.vtv) }
{
    let f: [f64; K] = column_factors(&MatrixView { entries: a, size }, c, h);
    less_rows(a, size, c, h, f);
}

// The same for K columns more, and K more, as long as there are so many. Returns the column after them.
fn reflect_columns<const K: usize>(a: &mut [f64], size: Size, c: usize, h: &Reflector) -> usize
    requires { Matrix a.old size × Down h.now size × (c ≤ size.n) × (0 < K) }
    ensures { (a.new
        ≡ between c result a.old
        (private.reflect_column size.m size.n h.now.first (at h.now.v.now h.now.first)
        (λ (row : ℕ). at h.now.v.now row) h.now.vtv))
        × (c ≤ result) × (result ≤ size.n) × (size.n < result + K) }
{
    let mut next = c;
    // The column after the last whole block is the result, which a `for` over `step_by(K)` does not give.
    while K <= size.n - next {
        reflect_lanes::<K>(a, size, next, h);
        next += K;
    }
    next
}

#[tactic(auto, using(crate::proofs::Laws::zeros), unfolding(crate::specs::Private::zero_below))]
fn zero_below(a: &mut [f64], size: Size, j: usize)
    requires { Matrix a.old size × (j < size.m) × (j < size.n) }
    ensures { a.new ≡ private.zero_below size.n j a.old size.m }
{
    for row in j + 1..size.m {
        a[size.place(row, j)] = 0.0;
    }
}

// Column j's reflector applied to the columns after it, four at a time and then one by one, and to b, a matrix of one
// column. The column's norm may be guessed to be near.
pub fn eliminate(
    a: &mut [f64],
    size: Size,
    j: usize,
    b: &mut [f64],
    v: &mut [f64; MAX_SIZE],
    near: Option<f64>,
)
    requires { Matrix a.old size × (j < size.m) × (j < size.n) × (length b.old ≡ size.m) }
    ensures { (p : List ℕ)
        → least.factors a.new b.new p
        ≡ least.eliminated size.m size.n j (least.factors a.old b.old p) }
{
    let Householder { beta, vtv } = householder(&MatrixView { entries: a, size }, j, v, near);
    let h = Reflector {
        v: &v[..size.m],
        first: j,
        rest: j + 1,
        vtv,
    };
    let c = reflect_columns::<4>(a, size, j + 1, &h);
    reflect_columns::<1>(a, size, c, &h);
    reflect_lanes::<1>(b, Size { m: size.m, n: 1 }, 0, &h);
    a[size.place(j, j)] = beta;
    zero_below(a, size, j);
}

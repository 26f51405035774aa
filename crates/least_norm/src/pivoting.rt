// The column of greatest remaining norm, brought to its place. Norms of K adjacent columns are summed together, row by
// row: each norm is the same sum as by itself.
ghost use Rattle.std.specs.Prelude.{◌≡◌, List, ℕ, ◌+◌, ◌≤◌, ◌<◌, length, replicate, Float};
ghost use Rattle.loops.specs.Loops.{between};
ghost use Rattle.floats.specs.Ops.{at, 0ᶠ};
ghost use Rattle.least_norm.specs.LeastNorm as least;
ghost use Rattle.least_norm.specs.Blocks.{squares};
ghost use Rattle.least_norm.specs.Private as private;
ghost use Rattle.least_norm.specs.Private.{Matrix, Scanned};

use crate::size::{MatrixView, Size};
use crate::{Pivot, Scan, lanes};

// The squared norms of K columns from column c on, from row j down.
fn column_norms<const K: usize>(a: &MatrixView, c: usize, j: usize) -> [f64; K]
    requires { (j ≤ a.now.size.m) × (c + K ≤ a.now.size.n) }
    ensures { result ≡ squares a.now.entries.now a.now.size.n c K (replicate K 0ᶠ) j a.now.size.m }
{
    let mut s = [0.0; K];
    for row in j..a.size.m {
        s = lanes::add_squares(s, a.entries, a.size.place(row, c));
    }
    s
}

// The better of the pivot so far and column c, whose norm is given; the first of equals.
#[tactic(auto, unfolding(crate::specs::Private::picked))]
fn picked(c: usize, norm: f64, best: Pivot) -> Pivot
    requires { best.col < c }
    ensures { (result ≡ private.picked c norm best) × (result.col ≤ c) }
{
    if norm > best.norm {
        Pivot { col: c, norm }
    } else {
        best
    }
}

// The same for K columns from column c on, whose norms s has.
#[tactic(auto, using(crate::proofs::Laws::turns))]
fn pick_lanes<const K: usize>(c: usize, s: [f64; K], best: Pivot) -> Pivot
    requires { (c + K ≤ 32) × (best.col < c) }
    ensures { (result ≡ between 0 K best (λ (t : ℕ) (p : Pivot). private.picked (c + t) (at s.entry t) p))
        × (result.col < c + K) }
{
    let mut p = best;
    for (t, norm) in s.iter().enumerate() {
        p = picked(c + t, *norm, p);
    }
    p
}

// The pivot among K columns of a more, and K more, as long as there are so many.
fn pick<const K: usize>(a: &MatrixView, j: usize, from: Scan) -> Scan
    requires { (j ≤ a.now.size.m) × (from.best.col < from.next) × (from.next ≤ a.now.size.n) × (0 < K) }
    ensures { Scanned a.now.entries.now a.now.size.m a.now.size.n j from.next from.best K result }
{
    let Scan { mut best, mut next } = from;
    // The column after the last whole block is part of the result, which a `for` over `step_by(K)` does not give.
    while K <= a.size.n - next {
        let s: [f64; K] = column_norms(a, next, j);
        best = pick_lanes(next, s, best);
        next += K;
    }
    Scan { best, next }
}

// The column of greatest norm from row j down, from column j on; the first of equals.
pub fn find_pivot(a: &MatrixView, j: usize) -> Pivot
    requires { (j < a.now.size.n) × (j ≤ a.now.size.m) }
    ensures { (result ≡ least.pivot a.now.entries.now a.now.size.m a.now.size.n j) × (result.col < a.now.size.n) }
{
    let own: [f64; 1] = column_norms(a, j, j);
    let first = Scan {
        best: Pivot {
            col: j,
            norm: own[0],
        },
        next: j + 1,
    };
    let fours = pick::<4>(a, j, first);
    pick::<1>(a, j, fours).best
}

fn swap_columns(a: &mut [f64], size: Size, j: usize, c: usize)
    requires { Matrix a.old size × (j < size.n) × (c < size.n) }
    ensures { a.new ≡ private.swap_columns size.n j c a.old size.m }
{
    for row in 0..size.m {
        a.swap(size.place(row, j), size.place(row, c));
    }
}

// Brings column c to place j.
#[tactic(auto, unfolding(crate::specs::LeastNorm::brought, crate::specs::Private::swap_columns, loops::specs::Loops::swap))]
pub fn bring(a: &mut [f64], size: Size, j: usize, c: usize, perm: &mut [u8])
    requires { Matrix a.old size × (j < size.n) × (c < size.n) × (length perm.old ≡ size.n) }
    ensures { (b : List Float)
        → least.factors a.new b perm.new
        ≡ least.brought size.m size.n j c (least.factors a.old b perm.old) }
{
    if c == j {
        return;
    }
    swap_columns(a, size, j, c);
    perm.swap(j, c);
}

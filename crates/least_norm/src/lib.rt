// The least-norm solution of a linear system of at most 32 rows and 32 columns by a complete orthogonal decomposition
// (dense.rs), held to the definitions of specs/. A loop that writes one list beside another that it reads goes by
// index: the library's contract does not state what `iter_mut().zip(..)` writes. So does a loop down a column, whose
// entries stand n apart.
#![tactic(auto)]

ghost use Rattle.std.specs.Prelude.{◌≡◌, ℕ, ◌+◌, ◌*◌, ◌≤◌, ◌<◌, min, length, drop, replicate};
ghost use Rattle.loops.specs.Loops.{tab};
ghost use Rattle.floats.specs.Ops.{0ᶠ};
ghost use Rattle.least_norm.specs.LeastNorm as least;
ghost use Rattle.least_norm.specs.Private as private;
ghost use Rattle.least_norm.specs.Promise as promise;

mod columns;
mod lanes;
mod one;
mod pivoting;
mod rank;
mod reflect;
mod size;
mod solution;
mod trapezoid;
mod vector;

use refusals::Refusal;
use size::{MatrixView, Size};
use solution::Permutation;

// The most rows, and the most columns.
pub const MAX_SIZE: usize = 32;

// The workspace of a solve: room for 32 reflectors from the right of 32 entries, and 32 values more, which document 01
// asks for.
pub const WORKSPACE: usize = 1056;

// What a diagonal entry must be above to count to the rank, over the first.
const RANK_TOLERANCE: f64 = 1e-11;

// A column and its squared norm.
#[derive(Clone, Copy)]
pub struct Pivot {
    pub col: usize,
    pub norm: f64,
}

// The pivot among the columns before `next`.
#[derive(Clone, Copy)]
pub struct Scan {
    pub best: Pivot,
    pub next: usize,
}

// A column's reflector: the entry that it leaves and its square.
#[derive(Clone, Copy)]
pub struct Householder {
    pub beta: f64,
    pub vtv: f64,
}

// 0, 1, 2, ..
fn count_up(perm: &mut [u8])
    requires { length perm.old ≤ 32 }
    ensures { perm.new ≡ tab (λ (i : ℕ). i) (length perm.old) }
{
    for (i, column) in perm.iter_mut().enumerate() {
        *column = i as u8;
    }
}

// Column j's work. Whether it goes on: it does not where every column from j on is zero. The squared norm that chose
// the pivot is nearly the one whose root the reflector takes, and known sooner: its rough root is found while the
// columns are swapped.
fn reduce(
    a: &mut [f64],
    size: Size,
    j: usize,
    b: &mut [f64],
    perm: &mut [u8],
    v: &mut [f64; MAX_SIZE],
) -> bool
    requires { private.Reducing a.old size b.old perm.old × (j < size.m) × (j < size.n) }
    ensures { private.standing result j (least.factors a.new b.new perm.new)
        ≡ least.reduce size.m size.n j (least.going (least.factors a.old b.old perm.old)) }
{
    let p = pivoting::find_pivot(&MatrixView { entries: a, size }, j);
    let near = floats::sqrt_rough(p.norm);
    pivoting::bring(a, size, j, p.col, perm);
    if p.norm == 0.0 {
        return false;
    }
    columns::eliminate(a, size, j, b, v, near);
    true
}

// A P = Q R, Q applied to b as it is built. How many columns were reduced, of the first k. The four lists stay apart,
// here and in `reduce`: a struct of `&mut` was tried. Each function must then promise that the size and every reference
// stay, and the proof of `reduce` did not close.
fn reduce_columns(
    a: &mut [f64],
    size: Size,
    k: usize,
    b: &mut [f64],
    perm: &mut [u8],
    v: &mut [f64; MAX_SIZE],
) -> usize
    requires { private.Reducing a.old size b.old perm.old × (k ≤ size.m) × (k ≤ size.n)
        × (perm.old ≡ tab (λ (i : ℕ). i) size.n) }
    ensures { private.Stopped k (least.reduced size.m size.n a.old b.old k) result
        (least.factors a.new b.new perm.new) }
{
    for j in 0..k {
        if !reduce(a, size, j, b, perm, v) {
            return j;
        }
    }
    k
}

// The solution at a rank above 0, y cleared. Every entry of x is written.
fn solve_ranked(
    a: &mut [f64],
    top: Size,
    b: &[f64],
    x: &mut [f64],
    right: &mut [f64],
    order: &Permutation,
    y: &mut [f64],
)
    requires { private.Trapezoidal a.old top right.old × (0 < top.m) × (top.m ≤ length b.now)
        × (length order.now.columns.now ≡ top.n) × (y.old ≡ replicate top.n 0ᶠ) × (length x.old ≡ top.n) }
    ensures { least.solution top.m a.new b.now x.new
        ≡ least.solved top.n (least.factors a.old b.now order.now.columns.now) top.m }
{
    trapezoid::clear(a, top, right);
    let t = MatrixView {
        entries: a,
        size: top,
    };
    solution::substitute(&t, b, y);
    let reflectors = MatrixView {
        entries: right,
        size: top,
    };
    solution::turn_back(&reflectors, y);
    solution::unpermute(order.columns, y, x);
}

// The solution at full rank. Every entry of y and of x is written, so neither need be cleared, and there is no
// reflector from the right.
fn solve_full(t: &MatrixView, b: &[f64], x: &mut [f64], order: &Permutation, y: &mut [f64])
    requires { private.Substituting t.now.size b.now y.old × (0 < t.now.size.n) × (t.now.size.m ≡ t.now.size.n)
        × (length x.old ≡ t.now.size.n) × (length order.now.columns.now ≡ t.now.size.n) }
    ensures { least.solution t.now.size.m t.now.entries.now b.now x.new
        ≡ least.solved t.now.size.n (least.factors t.now.entries.now b.now order.now.columns.now) t.now.size.m }
{
    solution::substitute(t, b, y);
    solution::unpermute(order.columns, y, x);
}

// The solution at any rank. The reflectors stand in the front of the workspace.
fn solve_at(
    a: &mut [f64],
    size: Size,
    b: &[f64],
    x: &mut [f64],
    workspace: &mut [f64],
    order: &Permutation,
    y: &mut [f64],
    rank: usize,
)
    requires { private.Matrix a.old size × (rank ≤ size.m) × (rank ≤ size.n) × (length b.now ≡ size.m)
        × (length order.now.columns.now ≡ size.n) × (1056 ≤ length workspace.old) × (length y.old ≡ size.n)
        × (length x.old ≡ size.n) }
    ensures { (least.solution rank a.new b.now x.new
        ≡ least.solved size.n (least.factors a.old b.now order.now.columns.now) rank)
        × (drop 1056 workspace.new ≡ drop 1056 workspace.old) }
{
    if rank == 0 {
        x.fill(0.0);
        return;
    }
    let top = Size { m: rank, n: size.n };
    if rank == size.n {
        let t = MatrixView {
            entries: a,
            size: top,
        };
        solve_full(&t, b, x, order, y);
        return;
    }
    y.fill(0.0);
    solve_ranked(a, top, b, x, &mut workspace[..rank * size.n], order, y);
}

// The whole, the sizes checked. v is for a column, and then for y.
fn least_norm(
    a: &mut [f64],
    size: Size,
    b: &mut [f64],
    x: &mut [f64],
    workspace: &mut [f64],
    perm: &mut [u8],
    v: &mut [f64; MAX_SIZE],
) -> usize
    requires { private.Reducing a.old size b.old perm.old × (length x.old ≡ size.n)
        × (1056 ≤ length workspace.old) }
    ensures { (least.solution result a.new b.new x.new
        ≡ least.least_norm size.m size.n a.old b.old)
        × (drop 1056 workspace.new ≡ drop 1056 workspace.old) × (result ≤ 32) }
{
    count_up(perm);
    let columns = reduce_columns(a, size, size.m.min(size.n), b, perm, v);
    let rank = rank::leading(&MatrixView { entries: a, size }, columns);
    let order = Permutation { columns: perm };
    solve_at(a, size, b, x, workspace, &order, &mut v[..size.n], rank);
    rank
}

// Whether the call can be taken.
fn fits(a: &[f64], m: usize, n: usize, b: &[f64], x: &[f64], workspace: &[f64]) -> bool
    ensures { result ≡ promise.fits m n a.now b.now x.now (length workspace.now) }
{
    m <= MAX_SIZE
        && n <= MAX_SIZE
        && a.len() == m * n
        && b.len() == m
        && x.len() == n
        && workspace.len() >= WORKSPACE
}

#[derive(Clone, Copy)]
pub struct LeastNorm {}

impl LeastNorm {
    // Writes into x the x of least norm among those that minimize ‖A x − b‖, and returns the rank of A. a holds A, m
    // rows of n entries each, row by row. a and b are overwritten. The first 1,056 values of the workspace are free
    // afterwards. The lists stay apart: document 01 has separate lent slices, and C lends them so.
    #[tactic(auto, unfolding(crate::specs::Promise::reply))]
    pub fn solve(
        a: &mut [f64],
        m: usize,
        n: usize,
        b: &mut [f64],
        x: &mut [f64],
        workspace: &mut [f64],
    ) -> Result<usize, Refusal>
        ensures { promise.Replied
            (promise.reply m n a.old b.old x.old (length workspace.old)) result
            a.old a.new b.old b.new x.old x.new
            workspace.old workspace.new }
    {
        if !fits(a, m, n, b, x, workspace) {
            return Err(Refusal::LeastNorm);
        }
        if a.len() == 1 {
            return Ok(one::solve(a, b, x));
        }
        // Fixed memory: the scratch is as long as the largest problem needs, and its front is in use.
        let mut perm = [0u8; MAX_SIZE];
        let mut v = [0.0f64; MAX_SIZE];
        Ok(least_norm(a, Size { m, n }, b, x, workspace, &mut perm[..n], &mut v))
    }
}

// The system of the free rows s, W_ss diag(scale_s) z = −(u_free_s + W_sb ν_b) where b are the others, its solution of
// least norm, and what that leaves of it.
// A list that is written is lent beside the view, with a place for each free row: a struct that held it as `&mut` would
// be made anew for each call, and each contract would have to say that it is still the list that was lent.
ghost use Rattle.std.specs.Prelude.{◌≡◌, ◌≤◌, ◌*◌, ◌+◌, cond, ℕ, ◌<◌, eqb, length, get_or};
ghost use Rattle.std.specs.Float.Ieee.{neg};
ghost use Rattle.loops.specs.Loops.{tab};
ghost use Rattle.floats.specs.Ops.{at};
ghost use Rattle.box_rows.specs.Rows as box;
ghost use Rattle.exact_pass.specs.Pass as pass;
ghost use Rattle.exact_pass.specs.Private as private;

use crate::free_rows::{FreeRows, Solution};
use crate::{EXACT_RESIDUAL, RIGHT_HAND_SIDE, Residuals};
use box_rows::INSIDE;
use least_norm::LeastNorm;

// The right-hand side before any column: minus the free motion of each free row.
#[tactic(auto, using(crate::proofs::Loops::filling))]
fn right_hand_start(free: &FreeRows, rhs: &mut [f64])
    requires place { length rhs.old ≡ length free.now.rows.now }
    ensures { rhs.new
        ≡ tab (λ (i : ℕ). neg (at free.now.trial.problem.now.u_free.now (get_or free.now.rows.now i 0)))
        (length free.now.rows.now) }
{
    let u_free = free.trial.problem.u_free;
    for (i, row) in free.rows.iter().enumerate() {
        rhs[i] = -u_free[*row as usize];
    }
}

// Column j, whose row has the multiplier v, taken from the right-hand side of each free row where row j is not free:
// the columns of free rows are on the left.
// Row j goes by its number: a ProblemRow would have to be asked to be of the problem of the free rows.
#[tactic(auto, using(crate::proofs::Loops::updating), unfolding(loops::specs::Updates::updated))]
fn bound_column(free: &FreeRows, state: u8, j: usize, v: f64, rhs: &mut [f64])
    requires column { j < length free.now.trial.problem.now.u_free.now }
    requires place { length rhs.old ≡ length free.now.rows.now }
    ensures { rhs.new
        ≡ cond (eqb state box.inside) rhs.old
        (private.column_taken free.now.trial.problem.now.w.now (length free.now.trial.problem.now.u_free.now)
        free.now.rows.now j v (length free.now.rows.now) rhs.old) }
{
    if state == INSIDE {
        return;
    }
    for (i, r) in rhs.iter_mut().enumerate() {
        *r = *r - free.row(i)[j] * v;
    }
}

// Column by column: the sums of different rows do not wait for each other, and a column is tested once.
#[tactic(auto, using(crate::proofs::Systems::by_columns))]
pub fn right_hand_side(free: &FreeRows, rhs: &mut [f64])
    requires place { length rhs.old ≡ length free.now.rows.now }
    ensures { rhs.new
        ≡ pass.right_hand_side free.now.trial.problem.now.w.now free.now.trial.problem.now.u_free.now
        free.now.trial.states.now free.now.trial.values.now free.now.rows.now (length free.now.rows.now) }
{
    right_hand_start(free, rhs);
    let states = free.trial.states;
    for (j, multiplier) in free.trial.values.iter().enumerate() {
        bound_column(free, states[j], j, *multiplier, rhs);
    }
}

// One row of the matrix: the entries in the columns of free rows, each times its scale.
#[tactic(auto, using(crate::proofs::Loops::filling), unfolding(crate::specs::Private::matrix_row))]
fn matrix_row(free: &FreeRows, i: usize, out: &mut [f64])
    requires row { i < length free.now.rows.now }
    requires place { length out.old ≡ length free.now.rows.now }
    ensures { out.new
        ≡ private.matrix_row
        (box.row free.now.trial.problem.now.w.now (length free.now.trial.problem.now.scale.now)
        (get_or free.now.rows.now i 0))
        free.now.trial.problem.now.scale.now free.now.rows.now (length free.now.rows.now) }
{
    let row = free.row(i);
    let scale = free.trial.problem.scale;
    for (j, column) in free.rows.iter().enumerate() {
        let b = *column as usize;
        out[j] = row[b] * scale[b];
    }
}

// The matrix of the system in m, row by row.
#[tactic(auto, using(crate::proofs::Systems::by_rows))]
pub fn matrix(free: &FreeRows, m: &mut [f64])
    requires { length m.old ≡ length free.now.rows.now * length free.now.rows.now }
    ensures { m.new
        ≡ pass.matrix free.now.trial.problem.now.w.now free.now.trial.problem.now.scale.now free.now.rows.now
        (length free.now.rows.now) }
{
    let k = free.rows.len();
    for i in 0..k {
        matrix_row(free, i, &mut m[i * k..i * k + k]);
    }
}

// What z leaves of two rows, whose right-hand sides are a and b: their sums do not wait for each other.
#[tactic(auto, using(crate::proofs::Loops::turning), unfolding(crate::specs::Private::residual_row))]
fn residual_rows(s: &Solution, first: &[f64], second: &[f64], a: f64, b: f64) -> Residuals
    requires first { length first.now ≡ length s.now.free.now.trial.problem.now.u_free.now }
    requires second { length second.now ≡ length s.now.free.now.trial.problem.now.u_free.now }
    ensures { private.TwoResiduals first.now second.now s.now.free.now.trial.problem.now.scale.now
        s.now.free.now.rows.now s.now.z.now a b result }
{
    let free = s.free;
    let scale = free.trial.problem.scale;
    let z = s.z;
    let mut x = -a;
    let mut y = -b;
    // By enumerate: with zip, which asks two lists for their ends, a solve of 32 rows took a hundredth longer.
    for (j, row) in free.rows.iter().enumerate() {
        let c = *row as usize;
        x = x + first[c] * scale[c] * z[j];
        y = y + second[c] * scale[c] * z[j];
    }
    Residuals {
        first: x,
        second: y,
    }
}

// Whether r, what is left of row a, is too large for its diagonal and scale.
#[tactic(auto, unfolding(crate::specs::Private::too_large))]
fn too_large(r: f64, row: &[f64], scale: &[f64], a: usize) -> bool
    requires lists { length row.now ≡ length scale.now }
    requires row { a < length scale.now }
    ensures { result ≡ private.too_large row.now scale.now a r }
{
    floats::abs(r / row[a]) / scale[a] > EXACT_RESIDUAL
}

// y gets minus what z leaves of rows i and e at their places; whether one of them is too large.
fn two_rows(s: &Solution, rhs: &[f64], i: usize, e: usize, y: &mut [f64]) -> bool
    requires first { i < length s.now.free.now.rows.now }
    requires second { e < length s.now.free.now.rows.now }
    requires side { length rhs.now ≡ length s.now.free.now.rows.now }
    requires direction { length y.old ≡ length s.now.free.now.rows.now }
    ensures { private.TwoTested s.now.free.now.trial.problem.now.w.now s.now.free.now.trial.problem.now.scale.now
        s.now.free.now.rows.now rhs.now s.now.z.now i e y.old result y.new }
{
    let free = s.free;
    let scale = free.trial.problem.scale;
    let a = free.rows[i] as usize;
    let b = free.rows[e] as usize;
    let first = free.row(i);
    let second = free.row(e);
    let r = residual_rows(s, first, second, rhs[i], rhs[e]);
    y[i] = -r.first;
    y[e] = -r.second;
    too_large(r.first, first, scale, a) | too_large(r.second, second, scale, b)
}

// y is minus what z leaves of each row, whose right-hand side is in the workspace; whether some row's is too large. Two
// rows are taken at a time, of which the second is the first again where that is the last.
pub fn residual(s: &Solution, work: &[f64], y: &mut [f64]) -> bool
    requires workspace { RIGHT_HAND_SIDE + length s.now.free.now.rows.now ≤ length work.now }
    requires direction { length y.old ≡ length s.now.free.now.rows.now }
    ensures { private.Tested s.now.free.now.trial.problem.now.w.now s.now.free.now.trial.problem.now.scale.now
        s.now.free.now.rows.now
        (private.part private.RIGHT_HAND_SIDE (length s.now.free.now.rows.now) work.now) s.now.z.now result y.new }
{
    let k = s.free.rows.len();
    let rhs = &work[RIGHT_HAND_SIDE..RIGHT_HAND_SIDE + k];
    let mut inconsistent = false;
    for h in 0..(k + 1) / 2 {
        let i = 2 * h;
        let e = (i + 1).min(k - 1);
        inconsistent |= two_rows(s, rhs, i, e, y);
    }
    inconsistent
}

// A least-norm call that fits: k rows and columns. It is not refused, and nobody asks for the rank.
pub fn solve(m: &mut [f64], b: &mut [f64], z: &mut [f64], work: &mut [f64])
    requires { private.SolveLent (length b.old) m.old z.old work.old }
    ensures { private.Solved m.old b.old work.old z.new
        work.new }
{
    let k = b.len();
    let _ = LeastNorm::solve(m, k, k, b, z, work);
}

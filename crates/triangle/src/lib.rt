// The solve of a symmetric matrix that comes as its lower triangle by rows: the full solve of the mirrored matrix, which
// stands in the call's own scratch while it runs. specs/Triangle.antt defines it.
#![tactic(auto)]

ghost use Rattle.std.specs.Prelude.{◌≡◌, ◌*◌, ◌≤◌, IfOk, length};
ghost use Rattle.std.specs.Result.{result_err};
ghost use Rattle.boxed.specs.Solve as solve;
ghost use Rattle.triangle.specs.Triangle as triangle;

use boxed::{BoxOutcome, BoxSolver};
use mirror::Triangle;
use refusals::Refusal;

mod mirror;

// What is tested before the full solve's own rules: more than 32 rows or too much motion, and then a triangle that has
// not n (n + 1) / 2 values.
fn measured<'a>(t: &'a [f64], n: usize, motion: usize) -> Result<Triangle<'a>, Refusal>
    ensures refused { result_err result ≡ triangle.measured (length t.now) n motion }
    ensures triangle { IfOk result (λ q. (q.values.now ≡ t.now) × (q.n ≡ n)) }
{
    if boxed::too_large(n, motion) {
        return Err(Refusal::TooLarge);
    }
    if t.len() != mirror::row_start(n) {
        return Err(Refusal::Triangle);
    }
    Ok(Triangle { values: t, n })
}

// The full solve of the mirrored matrix, in scratch of K values: fixed memory, of which the front is in use. The lists
// stay apart, here and in `refusal`, as in `BoxSolver::solve`.
fn solve_in<const K: usize>(
    t: &Triangle,
    u_free: &[f64],
    lo: &[f64],
    hi: &[f64],
    scale: &[f64],
    motion: &[f64],
    tolerance: f64,
    nu: &mut [f64],
    states: &mut [u8],
    rows: &mut [usize],
    workspace: &mut [f64],
) -> Result<BoxOutcome, Refusal>
    requires rows { t.now.n ≡ length u_free.now }
    requires scratch { t.now.n * t.now.n ≤ K }
    requires small { K ≤ 1024 }
    ensures { solve.Left
        (solve.solve_reply
        (triangle.problem t.now.values.now u_free.now lo.now hi.now scale.now)
        (solve.watch motion.now tolerance)
        nu.old states.old rows.old (length workspace.old))
        result nu.new states.new rows.new
        workspace.old workspace.new }
{
    let mut w = [0.0f64; K];
    let matrix = &mut w[..t.n * t.n];
    t.mirror(matrix);
    BoxSolver::solve(
        matrix, u_free, lo, hi, scale, motion, tolerance, nu, states, rows, workspace,
    )
}

// How `solve` refuses such a call, or that it takes it. `room` is the workspace's length. No refusal looks into the
// matrix, so any n * n values stand for it.
pub fn refusal(
    t: &[f64],
    u_free: &[f64],
    lo: &[f64],
    hi: &[f64],
    scale: &[f64],
    motion: &[f64],
    nu: &[f64],
    states: &[u8],
    rows: &[usize],
    room: usize,
) -> Result<(), Refusal>
    ensures { result_err result ≡ triangle.triangle_refusal (length t.now)
        (triangle.problem t.now u_free.now lo.now hi.now scale.now)
        motion.now nu.now states.now rows.now room }
{
    let n = u_free.len();
    measured(t, n, motion.len())?;
    let w = [0.0f64; 1024];
    BoxSolver::refusal(
        &w[..n * n],
        u_free,
        lo,
        hi,
        scale,
        motion,
        nu,
        states,
        rows,
        room,
    )
}

// BoxSolver::solve of the mirrored matrix of t, a lower triangle by rows: its answer, and what it leaves in every slice;
// or, in the place of a matrix that is not square, a triangle that has not n (n + 1) / 2 values, and nothing is changed.
// The lists stay apart, as in `BoxSolver::solve`: C lends them so.
pub fn solve(
    t: &[f64],
    u_free: &[f64],
    lo: &[f64],
    hi: &[f64],
    scale: &[f64],
    motion: &[f64],
    tolerance: f64,
    nu: &mut [f64],
    states: &mut [u8],
    rows: &mut [usize],
    workspace: &mut [f64],
) -> Result<BoxOutcome, Refusal>
    ensures { solve.Left
        (triangle.triangle_reply (length t.now)
        (triangle.problem t.now u_free.now lo.now hi.now scale.now)
        (solve.watch motion.now tolerance)
        nu.old states.old rows.old (length workspace.old))
        result nu.new states.new rows.new
        workspace.old workspace.new }
{
    let t = measured(t, u_free.len(), motion.len())?;
    // The scratch is no larger than need be: clearing 1,024 values takes longer than a solve of one row.
    if t.n <= 8 {
        return solve_in::<64>(
            &t, u_free, lo, hi, scale, motion, tolerance, nu, states, rows, workspace,
        );
    }
    solve_in::<1024>(
        &t, u_free, lo, hi, scale, motion, tolerance, nu, states, rows, workspace,
    )
}

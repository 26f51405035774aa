// The solver's public calls for C and Rust, by plain numbers and slices: a slice passes as a pointer and then a
// length. include/piskorlu.h declares them. Each call is total; one that cannot be taken answers document 01's number
// and writes nothing.
// The lists of a call stay apart: C lends each by itself.
#![tactic(auto)]

ghost use Rattle.std.specs.Prelude.{◌≡◌, length};
ghost use Rattle.box_rows.specs.Rows as box;
ghost use Rattle.boxed.specs.Solve as solve;
ghost use Rattle.floats.specs.Sqrt as root;
ghost use Rattle.report.specs.Joins as joins;
ghost use Rattle.capi.specs.LeastNorm as call;
ghost use Rattle.capi.specs.Reports as report;
ghost use Rattle.capi.specs.Solves as plain;

use boxed::BoxSolver;
use least_norm::LeastNorm;
use refusals::Refusal;

mod bend;
mod reports;
mod solves;
mod tallying;
mod triangles;

pub use bend::piskorlu_bend;
pub use tallying::piskorlu_tallied;
pub use triangles::{piskorlu_solve_triangle, piskorlu_tallied_triangle};

// The square root, rounded to nearest.
#[unsafe(no_mangle)]
pub extern "C" fn piskorlu_sqrt(v: f64) -> f64
    ensures { result ≡ root.sqrt v }
{
    floats::sqrt(v)
}

// LeastNorm::solve: 0, and rank[0] is the rank; or 12, and nothing is written, also where rank has no place.
#[tactic(auto, unfolding(crate::specs::LeastNorm::reply))]
#[unsafe(no_mangle)]
pub extern "C" fn piskorlu_least_norm(
    a: &mut [f64],
    m: usize,
    n: usize,
    b: &mut [f64],
    x: &mut [f64],
    workspace: &mut [f64],
    rank: &mut [u32],
) -> u32
    ensures { call.Answered
        (call.reply m n a.old b.old x.old (length workspace.old)
        rank.old)
        result a.old a.new b.old b.new x.old x.new
        workspace.old workspace.new rank.old rank.new }
{
    if rank.is_empty() {
        return Refusal::LeastNorm.into();
    }
    match LeastNorm::solve(a, m, n, b, x, workspace) {
        Ok(r) => {
            rank[0] = r as u32;
            0
        }
        Err(refusal) => refusal.into(),
    }
}

// Two reports joined by `and`, each ten counts and a residual: 0 and the joined report in counts and residual, or 13.
#[tactic(auto, unfolding(crate::specs::Reports::taken))]
#[unsafe(no_mangle)]
pub extern "C" fn piskorlu_and(
    a: &[u32],
    a_residual: f64,
    b: &[u32],
    b_residual: f64,
    counts: &mut [u32],
    residual: &mut [f64],
) -> u32
    ensures { report.Left
        (report.reply
        (report.taken a.now b.now counts.old residual.old)
        (joins.and (report.read a.now a_residual) (report.read b.now b_residual)))
        result counts.old counts.new residual.old residual.new }
{
    let (Some(a), Some(b)) = (a.first_chunk::<10>(), b.first_chunk::<10>()) else {
        return Refusal::Join.into();
    };
    let Some(counts) = counts.first_chunk_mut::<10>() else {
        return Refusal::Join.into();
    };
    let Some(residual) = residual.first_mut() else {
        return Refusal::Join.into();
    };
    let joined = reports::read(a, a_residual).and(reports::read(b, b_residual));
    reports::leave(joined, counts, residual)
}

// One increment's report a, gone on from there as b reports, by `continued`: 0 and the report in counts and residual,
// or 13. C names each of the two joins; one function for both, lent the join, would be no plainer: it would have these
// six parameters and this contract once more.
#[tactic(auto, unfolding(crate::specs::Reports::taken))]
#[unsafe(no_mangle)]
pub extern "C" fn piskorlu_continued(
    a: &[u32],
    a_residual: f64,
    b: &[u32],
    b_residual: f64,
    counts: &mut [u32],
    residual: &mut [f64],
) -> u32
    ensures { report.Left
        (report.reply
        (report.taken a.now b.now counts.old residual.old)
        (joins.continued (report.read a.now a_residual) (report.read b.now b_residual)))
        result counts.old counts.new residual.old residual.new }
{
    let (Some(a), Some(b)) = (a.first_chunk::<10>(), b.first_chunk::<10>()) else {
        return Refusal::Join.into();
    };
    let Some(counts) = counts.first_chunk_mut::<10>() else {
        return Refusal::Join.into();
    };
    let Some(residual) = residual.first_mut() else {
        return Refusal::Join.into();
    };
    let joined = reports::read(a, a_residual).continued(reports::read(b, b_residual));
    reports::leave(joined, counts, residual)
}

// BoxSolver::solve: 0, with eight counts and the residual of the answer; or document 01's number, and nothing is
// written.
#[tactic(auto, unfolding(crate::specs::Solves::taken, crate::specs::Solves::reply))]
#[unsafe(no_mangle)]
pub extern "C" fn piskorlu_solve(
    w: &[f64],
    u_free: &[f64],
    lo: &[f64],
    hi: &[f64],
    scale: &[f64],
    motion: &[f64],
    tolerance: f64,
    nu: &mut [f64],
    states: &mut [u8],
    rows: &mut [usize],
    workspace: &mut [f64],
    counts: &mut [usize],
    residual: &mut [f64],
) -> u32
    ensures { plain.Answered
        (plain.reply (plain.taken counts.old residual.old)
        (solve.solve_reply
        (box.problem w.now u_free.now lo.now hi.now scale.now)
        (solve.watch motion.now tolerance)
        nu.old states.old rows.old (length workspace.old))
        nu.old states.old rows.old)
        result nu.new states.new rows.new
        counts.old counts.new residual.old residual.new
        workspace.old workspace.new }
{
    let Some(counts) = counts.first_chunk_mut::<8>() else {
        return Refusal::Short.into();
    };
    let Some(residual) = residual.first_mut() else {
        return Refusal::Short.into();
    };
    let answer = BoxSolver::solve(
        w, u_free, lo, hi, scale, motion, tolerance, nu, states, rows, workspace,
    );
    solves::leave(answer, counts, residual)
}

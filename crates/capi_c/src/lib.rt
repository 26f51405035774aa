// The exports of capi for C and Rust: a crate is a library or a static library, not both, so that each call of the
// library is exported here under its name, with its clauses. include/piskorlu.h declares the calls.
// The lists of a call stay apart: C lends each by itself.
#![tactic(auto)]

ghost use Rattle.std.specs.Prelude.{◌≡◌, length};
ghost use Rattle.box_rows.specs.Rows as box;
ghost use Rattle.boxed.specs.Solve as solve;
ghost use Rattle.floats.specs.Sqrt as root;
ghost use Rattle.report.specs.Joins as joins;
ghost use Rattle.capi.specs.LeastNorm as call;
ghost use Rattle.capi.specs.Reports as report;
ghost use Rattle.capi.specs.Solves as plain;

mod bend;
mod tallying;
mod triangles;

// The square root, rounded to nearest.
#[unsafe(no_mangle)]
pub extern "C" fn piskorlu_sqrt(v: f64) -> f64
    ensures { result ≡ root.sqrt v }
{
    capi::piskorlu_sqrt(v)
}

// LeastNorm::solve: 0, and rank[0] is the rank; or 12, and nothing is written, also where rank has no place.
#[unsafe(no_mangle)]
pub extern "C" fn piskorlu_least_norm(
    a: &mut [f64],
    m: usize,
    n: usize,
    b: &mut [f64],
    x: &mut [f64],
    workspace: &mut [f64],
    rank: &mut [u32],
) -> u32
    ensures { call.Answered
        (call.reply m n a.old b.old x.old (length workspace.old)
        rank.old)
        result a.old a.new b.old b.new x.old x.new
        workspace.old workspace.new rank.old rank.new }
{
    capi::piskorlu_least_norm(a, m, n, b, x, workspace, rank)
}

// Two reports joined by `and`, each ten counts and a residual: 0 and the joined report in counts and residual, or 13.
#[unsafe(no_mangle)]
pub extern "C" fn piskorlu_and(
    a: &[u32],
    a_residual: f64,
    b: &[u32],
    b_residual: f64,
    counts: &mut [u32],
    residual: &mut [f64],
) -> u32
    ensures { report.Left
        (report.reply
        (report.taken a.now b.now counts.old residual.old)
        (joins.and (report.read a.now a_residual) (report.read b.now b_residual)))
        result counts.old counts.new residual.old residual.new }
{
    capi::piskorlu_and(a, a_residual, b, b_residual, counts, residual)
}

// One increment's report a, gone on from there as b reports, by `continued`: 0 and the report in counts and residual,
// or 13.
#[unsafe(no_mangle)]
pub extern "C" fn piskorlu_continued(
    a: &[u32],
    a_residual: f64,
    b: &[u32],
    b_residual: f64,
    counts: &mut [u32],
    residual: &mut [f64],
) -> u32
    ensures { report.Left
        (report.reply
        (report.taken a.now b.now counts.old residual.old)
        (joins.continued (report.read a.now a_residual) (report.read b.now b_residual)))
        result counts.old counts.new residual.old residual.new }
{
    capi::piskorlu_continued(a, a_residual, b, b_residual, counts, residual)
}

// BoxSolver::solve: 0, with eight counts and the residual of the answer; or document 01's number, and nothing is
// written.
#[unsafe(no_mangle)]
pub extern "C" fn piskorlu_solve(
    w: &[f64],
    u_free: &[f64],
    lo: &[f64],
    hi: &[f64],
    scale: &[f64],
    motion: &[f64],
    tolerance: f64,
    nu: &mut [f64],
    states: &mut [u8],
    rows: &mut [usize],
    workspace: &mut [f64],
    counts: &mut [usize],
    residual: &mut [f64],
) -> u32
    ensures { plain.Answered
        (plain.reply (plain.taken counts.old residual.old)
        (solve.solve_reply
        (box.problem w.now u_free.now lo.now hi.now scale.now)
        (solve.watch motion.now tolerance)
        nu.old states.old rows.old (length workspace.old))
        nu.old states.old rows.old)
        result nu.new states.new rows.new
        counts.old counts.new residual.old residual.new
        workspace.old workspace.new }
{
    capi::piskorlu_solve(
        w, u_free, lo, hi, scale, motion, tolerance, nu, states, rows, workspace, counts, residual,
    )
}

// The box solver of boxed.rs: sweeps with their tests, exact passes at the checkpoints, and what a solve reports and
// leaves.
#![tactic(auto)]

ghost use Rattle.std.specs.Prelude.{◌≡◌, length, take};
ghost use Rattle.box_rows.specs.Rows as box;
ghost use Rattle.box_rows.specs.Lent as lent;
ghost use Rattle.boxed.specs.Solve as solve;
ghost use Rattle.boxed.specs.Private as private;

// The steps of a solve are, in their order: refusal; start; run, which has for each turn sweep, growth, checkpoints and
// tests; ending.
use box_rows::problem::BoxProblem;

mod checkpoints;
mod ending;
mod growth;
mod refusal;
mod run;
mod start;
mod sweep;
mod tests;

pub use refusal::too_large;
use refusals::Refusal;

// The most values of a problem's motion.
pub const MAX_MOTION: usize = 2048;

// The fewest values of a workspace. Document 01 asks for 2,304, and a shorter one is refused. A solve uses the first
// 1,184 alone: up to `BEFORE`, and MAX_ROWS multipliers from there.
pub const WORKSPACE: usize = 2304;

// Where the workspace has the multipliers before a sweep: past an exact pass's part and the multipliers that the pass
// starts from. A local array would have to be cleared in each sweep.
const BEFORE: usize = exact_pass::WORKSPACE + box_rows::MAX_ROWS;

// The most sweeps one solve runs.
pub const SWEEP_CAP: u32 = 200;

// The sweeps after which an exact pass is tried, beside the last that there may be.
pub const CHECKPOINTS: [u32; 8] = [1, 2, 4, 8, 16, 32, 64, 128];

// How a solve found that no motion meets every row: by growth, in an exact pass, or after a sweep.
#[derive(Clone, Copy, PartialEq, Eq)]
pub enum Cause {
    Growth,
    Pass,
    Sweep,
}

// What a solve reports.
#[derive(Clone, Copy)]
pub struct BoxReport {
    // Sweeps run.
    pub sweeps: u32,
    // Exact passes tried.
    pub exact_passes: u32,
    // Whether it stopped on its own tests rather than on the cap.
    pub converged: bool,
    // Whether an exact pass found the solution.
    pub exact: bool,
    // The largest natural residual at the end, over its row's scale.
    pub residual: f64,
    // Rows skipped because they cannot act.
    pub idle: u32,
    // Rows whose update the last sweep stopped at a bound.
    pub stopped: u32,
}

// How a solve ended. Solved: the multipliers are in the caller's slice. Infeasible: no motion meets every row; the rows
// that fight are at the front of the row list, and the second value is how many they are.
#[derive(Clone, Copy)]
pub enum BoxOutcome {
    Solved(BoxReport),
    Infeasible(Cause, usize, BoxReport),
}

// How a solve ended before the last sweep that there may be: by a pass that found the solution, by its own tests, or as
// no motion meets every row, and how many fight.
#[derive(Clone, Copy)]
pub enum Ended {
    Exact,
    Converged,
    Infeasible(Cause, usize),
}

// What a solve has counted so far; of the rows stopped those of the last sweep alone.
#[derive(Clone, Copy, Default)]
pub struct Counts {
    pub sweeps: u32,
    pub passes: u32,
    pub stopped: u32,
}

// The motion that is watched: a row of values for each coordinate, and the most that one may move in a sweep after
// which the solve tests whether it is done.
#[derive(Clone, Copy)]
pub struct Watch<'a> {
    pub motion: &'a [f64],
    pub tolerance: f64,
}

// A copy of `from` in `to`. By a loop: `copy_from_slice` compiles to memmove here, and C is asked for memcpy and memset
// alone. Apart from `store` of exact_pass: one for both would be public, and test lengths that each caller knows.
fn store(from: &[f64], to: &mut [f64])
    requires { length to.old ≡ length from.now }
    ensures { to.new ≡ from.now }
{
    for (i, value) in from.iter().enumerate() {
        to[i] = *value;
    }
}

// The solve of a call that is not refused: multipliers and states are one for each row, the row list has a place for
// each, and the workspace is not too short. The lists stay apart, as in `turn`.
fn solve_rows(
    p: &BoxProblem,
    watch: &Watch,
    nu: &mut [f64],
    states: &mut [u8],
    rows: &mut [usize],
    work: &mut [f64],
) -> BoxOutcome
    requires { private.Lent (lent.of p.now) states.old nu.old rows.old work.old }
    ensures { solve.Left
        (solve.solve solve.SWEEP_CAP (lent.of p.now) (private.watched watch.now)
        nu.old states.old rows.old)
        (Ok result) nu.new states.new rows.new work.old work.new }
{
    let idle = start::start(p, states, nu);
    if idle == p.n() {
        return BoxOutcome::Solved(ending::nothing(idle as u32));
    }
    let (ended, counts) = run::run(p, watch, states, nu, rows, work);
    ending::answer(p, states, nu, ended, counts, idle as u32)
}

// The solver of boxed.rs. There it keeps its workspace between solves; here it holds nothing, since the caller lends
// the workspace.
#[derive(Clone, Copy)]
pub struct BoxSolver {}

impl BoxSolver {
    // From the multipliers in nu, those that solve the problem, in their place, with a state for each row; or the rows
    // that fight at the front of the row list; or why the call is refused, and nothing is changed. The first 2,304
    // values of the workspace are free after a call that is not refused.
    // The lists stay apart: document 01 has separate lent slices, and C lends them so.
    pub fn solve(
        w: &[f64],
        u_free: &[f64],
        lo: &[f64],
        hi: &[f64],
        scale: &[f64],
        motion: &[f64],
        tolerance: f64,
        nu: &mut [f64],
        states: &mut [u8],
        rows: &mut [usize],
        workspace: &mut [f64],
    ) -> Result<BoxOutcome, Refusal>
        ensures { solve.Left
            (solve.solve_reply
            (box.problem w.now u_free.now lo.now hi.now
            scale.now)
            (solve.watch motion.now tolerance)
            nu.old states.old rows.old (length workspace.old))
            result nu.new states.new rows.new
            workspace.old workspace.new }
    {
        let n = u_free.len();
        let room = workspace.len();
        BoxSolver::refusal(w, u_free, lo, hi, scale, motion, nu, states, rows, room)?;
        let p = BoxProblem {
            w,
            u_free,
            lo,
            hi,
            scale,
        };
        let watch = Watch { motion, tolerance };
        Ok(solve_rows(&p, &watch, nu, &mut states[..n], rows, workspace))
    }
}

// The rows that fight: the filled front of the row list, of which an infeasible answer tells the length.
pub fn listed(rows: &[usize], count: usize) -> &[usize]
    ensures { result.now ≡ take count rows.now }
{
    rows.get(..count).unwrap_or(rows)
}

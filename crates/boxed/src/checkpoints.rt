// The checkpoints, and the exact pass that is tried at each.
ghost use Rattle.std.specs.Prelude.{◌≡◌, ◌+◌};
ghost use Rattle.box_rows.specs.Lent as lent;
ghost use Rattle.exact_pass.specs.Pass.{exact_pass};
ghost use Rattle.boxed.specs.Solve as solve;
ghost use Rattle.boxed.specs.Private as private;
ghost use Rattle.boxed.specs.declared.Counts.{Counts};

use crate::{CHECKPOINTS, Cause, Counts, Ended};
use box_rows::problem::BoxProblem;
use exact_pass::Exact;

// Whether a pass is tried after sweep k.
fn is_checkpoint(k: u32) -> bool
    ensures { result ≡ solve.checkpoint solve.SWEEP_CAP k }
{
    CHECKPOINTS.contains(&k) || k == crate::SWEEP_CAP
}

// How a pass that starts from the multipliers ends the solve, if it does. They are kept in the workspace past the
// pass's own part: they stay as they are unless it finds the solution.
// The slices are lent one by one: parts of two are copied here, so that a struct of the four would be taken apart.
fn attempt(
    p: &BoxProblem,
    states: &mut [u8],
    nu: &mut [f64],
    rows: &mut [usize],
    work: &mut [f64],
) -> Option<Ended>
    requires { private.Lent (lent.of p.now) states.old nu.old rows.old work.old }
    ensures { (c : Counts) → private.Worked private.BEFORE
        (solve.passed (solve.iterate nu.old states.old c)
        (exact_pass (lent.of p.now) states.old nu.old))
        rows.old work.old
        result nu.new states.new c rows.new work.new }
{
    let e = exact_pass::WORKSPACE + nu.len();
    crate::store(nu, &mut work[exact_pass::WORKSPACE..e]);
    let ended = match exact_pass::pass_of(p, states, nu, rows, work) {
        Exact::Found => return Some(Ended::Exact),
        Exact::Failed => None,
        Exact::Infeasible(k) => Some(Ended::Infeasible(Cause::Pass, k)),
    };
    crate::store(&work[exact_pass::WORKSPACE..e], nu);
    ended
}

// After the sweeps counted: a pass, where one is due.
pub fn check(
    p: &BoxProblem,
    states: &mut [u8],
    nu: &mut [f64],
    rows: &mut [usize],
    work: &mut [f64],
    counts: &mut Counts,
) -> Option<Ended>
    requires { private.CheckLent (lent.of p.now) states.old nu.old rows.old work.old counts.old }
    ensures { private.Counted private.BEFORE
        (solve.checked solve.SWEEP_CAP (lent.of p.now)
        (solve.going (solve.iterate nu.old states.old counts.old)))
        rows.old work.old counts.old.sweeps (counts.old.passes + 1)
        result nu.new states.new counts.new rows.new work.new }
{
    if is_checkpoint(counts.sweeps) {
        counts.passes += 1;
        return attempt(p, states, nu, rows, work);
    }
    None
}

// What a solve reports and leaves.
ghost use Rattle.std.specs.Prelude.{◌≡◌, length};
ghost use Rattle.box_rows.specs.Lent as lent;
ghost use Rattle.boxed.specs.Sweep as sweep;
ghost use Rattle.boxed.specs.Private as private;

use crate::{BoxOutcome, BoxReport, Counts, Ended, tests};
use box_rows::problem::BoxProblem;

// The report where all rows are Idle, so that there is nothing to solve.
pub fn nothing(idle: u32) -> BoxReport
    ensures { result ≡ private.nothing idle }
{
    report(Counts::default(), true, true, 0.0, idle)
}

// Sets the state of every row that acts to the one that its multiplier shows.
// States and multipliers stay apart, here and in the answer: the states are written, and the multipliers only read.
#[tactic(auto, unfolding(loops::specs::Loops::turns, crate::specs::Sweep::classified))]
fn classify(p: &BoxProblem, nu: &[f64], states: &mut [u8])
    requires { private.Lists (lent.of p.now) states.old nu.now }
    ensures { states.new
        ≡ sweep.classified p.now.lo.now p.now.hi.now p.now.scale.now nu.now
        states.old (length p.now.u_free.now) }
{
    for i in 0..p.n() {
        if states[i] != box_rows::IDLE {
            states[i] = u8::from(box_rows::state_of(p.lo[i], p.hi[i], p.scale[i], nu[i]));
        }
    }
}

// The report of a solve after the sweeps counted.
fn report(counts: Counts, converged: bool, exact: bool, residual: f64, idle: u32) -> BoxReport
    ensures { result ≡ record {
      sweeps = counts.sweeps;
      exact_passes = counts.passes;
      converged = converged;
      exact = exact;
      residual = residual;
      idle = idle;
      stopped = counts.stopped;
    } }
{
    BoxReport {
        sweeps: counts.sweeps,
        exact_passes: counts.passes,
        converged,
        exact,
        residual,
        idle,
        stopped: counts.stopped,
    }
}

// The answer of a solve that ended so, or ran all its sweeps, of whose rows `idle` are Idle. Where no exact pass found
// the solution and no rows fight, the states are set to those that the multipliers show.
pub fn answer(
    p: &BoxProblem,
    states: &mut [u8],
    nu: &[f64],
    ended: Option<Ended>,
    counts: Counts,
    idle: u32,
) -> BoxOutcome
    requires { private.Lists (lent.of p.now) states.old nu.now }
    ensures { private.Answered (lent.of p.now) idle ended nu.now states.old counts
        result states.new }
{
    let residual = tests::residual(p, states, nu);
    match ended {
        Some(Ended::Exact) => BoxOutcome::Solved(report(counts, true, true, residual, idle)),
        Some(Ended::Converged) => {
            classify(p, nu, states);
            BoxOutcome::Solved(report(counts, true, false, residual, idle))
        }
        Some(Ended::Infeasible(cause, k)) => BoxOutcome::Infeasible(
            cause,
            k,
            report(counts, false, false, residual, idle),
        ),
        None => {
            classify(p, nu, states);
            BoxOutcome::Solved(report(counts, false, false, residual, idle))
        }
    }
}

// The tallied solve of document 01: a solve whose report is joined to a tally, by value and then by reference.
// specs/Tally.antt of crate tally defines it.
#![tactic(auto)]

ghost use Rattle.std.specs.Prelude.{◌≡◌, length};
ghost use Rattle.boxed.specs.Solve as solve;
ghost use Rattle.tally.specs.Tally as def;
ghost use Rattle.tallied.specs.Joining as joining;
ghost use Rattle.tallied.specs.Private as private;

use boxed::{BoxOutcome, BoxReport};
use refusals::Refusal;
use report::SolveReport;

mod sent;

pub use sent::Sent;

// The tally that a solve leaves, and its answer.
#[derive(Clone, Copy)]
pub struct Tallied {
    pub tally: SolveReport,
    pub answer: Result<BoxOutcome, Refusal>,
}

// The most exact passes of a solve: one at each checkpoint, and one after the last sweep.
const PASSES: u32 = boxed::CHECKPOINTS.len() as u32 + 1;

// Whether the tally might not hold one solve more, of as many sweeps, passes and rows stopped as there may be.
#[tactic(auto, unfolding(tally::specs::Tally::full))]
pub fn full(tally: SolveReport) -> bool
    ensures { result ≡ def.full tally }
{
    tally.increments == u32::MAX
        || tally.sweeps > u32::MAX - boxed::SWEEP_CAP
        || tally.exact_passes > u32::MAX - PASSES
        || tally.stopped > u32::MAX - box_rows::MAX_ROWS as u32
}

// Whether no multiplier is NaN.
pub fn no_nan(nu: &[f64]) -> bool
    ensures { result ≡ def.no_nan nu.now }
{
    nu.iter().all(|v| !floats::is_nan(*v))
}

// The SolveReport that a report is turned into: converged, or exact, only if the report says so and none of the
// multipliers left is NaN.
#[tactic(auto, unfolding(tally::specs::Tally::turned))]
fn turned(report: BoxReport, none: bool) -> SolveReport
    ensures { result ≡ def.turned report none }
{
    SolveReport {
        increments: 1,
        iterations: 0,
        most_iterations: 0,
        rejected: 0,
        anchors: 0,
        sweeps: report.sweeps,
        exact_passes: report.exact_passes,
        stopped: report.stopped,
        converged: report.converged & none,
        exact: report.exact & none,
        residual: report.residual,
    }
}

// What the tally takes a report as, nu being the multipliers that its solve left. The report itself stays as the solve
// gave it.
#[tactic(auto, unfolding(tally::specs::Tally::taken))]
pub fn taken(report: BoxReport, nu: &[f64]) -> SolveReport
    ensures { result ≡ def.taken report nu.now }
{
    turned(report, no_nan(nu))
}

// A solve's report joined to the tally, which stays where the join is refused: a full tally is refused so that none is.
// It is told whether no multiplier left is NaN, and does not look for itself: with the loop in it, it would be called
// and not inlined, some 20 ns a solve.
#[tactic(auto, unfolding(crate::specs::Private::added))]
fn added(tally: SolveReport, report: BoxReport, none: bool) -> SolveReport
    ensures { result ≡ private.added tally report none }
{
    tally.and(turned(report, none)).unwrap_or(tally)
}

// The tally after such an answer, none of whose multipliers is NaN, or some.
fn joined_by(tally: SolveReport, answer: Result<BoxOutcome, Refusal>, none: bool) -> SolveReport
    ensures { result ≡ private.joined_by tally answer none }
{
    match answer {
        Err(_) => tally,
        Ok(BoxOutcome::Solved(report)) => added(tally, report, none),
        Ok(BoxOutcome::Infeasible(_, _, report)) => added(tally, report, none),
    }
}

// The solve of a problem, whose matrix is sent in either form, on a tally, which goes in and comes back with the solve's
// report joined to it, not converged and not exact where a multiplier is left NaN. The answer has the report as the
// solve by itself gives it. A solve that is refused by itself is refused so; any other is refused on a full tally. A
// refused solve joins nothing and changes nothing.
// The lists stay apart, as in `BoxSolver::solve`: C lends them so.
#[inline(always)]
pub fn tallied_solve(
    tally: SolveReport,
    sent: Sent,
    u_free: &[f64],
    lo: &[f64],
    hi: &[f64],
    scale: &[f64],
    motion: &[f64],
    tolerance: f64,
    nu: &mut [f64],
    states: &mut [u8],
    rows: &mut [usize],
    workspace: &mut [f64],
) -> Tallied
    ensures { joining.Entered
        (def.tallied tally
        (joining.call (joining.form sent.entry)
        (joining.problem sent.entry u_free.now lo.now hi.now scale.now)
        (solve.watch motion.now tolerance)
        nu.old states.old rows.old (length workspace.old)))
        result.tally result.answer nu.new states.new rows.new
        workspace.old workspace.new }
{
    if full(tally) {
        let room = workspace.len();
        let refused = sent.refusal(u_free, lo, hi, scale, motion, nu, states, rows, room);
        return Tallied {
            tally,
            answer: refused.and(Err(Refusal::Tally)),
        };
    }
    let answer = sent.solve(
        u_free, lo, hi, scale, motion, tolerance, nu, states, rows, workspace,
    );
    let none = no_nan(nu);
    Tallied {
        tally: joined_by(tally, answer, none),
        answer,
    }
}

// The same on a tally that is lent: it is updated in its place. One that is refused leaves it as it was.
pub fn solve_into(
    tally: &mut SolveReport,
    sent: Sent,
    u_free: &[f64],
    lo: &[f64],
    hi: &[f64],
    scale: &[f64],
    motion: &[f64],
    tolerance: f64,
    nu: &mut [f64],
    states: &mut [u8],
    rows: &mut [usize],
    workspace: &mut [f64],
) -> Result<BoxOutcome, Refusal>
    ensures { joining.Entered
        (def.tallied tally.old
        (joining.call (joining.form sent.entry)
        (joining.problem sent.entry u_free.now lo.now hi.now scale.now)
        (solve.watch motion.now tolerance)
        nu.old states.old rows.old (length workspace.old)))
        tally.new result nu.new states.new rows.new
        workspace.old workspace.new }
{
    let s = tallied_solve(
        *tally, sent, u_free, lo, hi, scale, motion, tolerance, nu, states, rows, workspace,
    );
    *tally = s.tally;
    s.answer
}

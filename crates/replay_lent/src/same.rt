// Whether two reports, answers or lists are the same, all NaNs as one: a derived equality would tell a NaN from itself.
use boxed::{BoxOutcome, BoxReport};
use refusals::Refusal;
use report::SolveReport;
use std::cmp::OrderedFloat;
use std::io;

pub fn report(a: SolveReport, b: SolveReport) -> bool {
    a.increments == b.increments
        && a.iterations == b.iterations
        && a.most_iterations == b.most_iterations
        && a.rejected == b.rejected
        && a.anchors == b.anchors
        && a.sweeps == b.sweeps
        && a.exact_passes == b.exact_passes
        && a.stopped == b.stopped
        && a.converged == b.converged
        && a.exact == b.exact
        && OrderedFloat(a.residual) == OrderedFloat(b.residual)
}

fn of_solve(a: BoxReport, b: BoxReport) -> bool {
    a.sweeps == b.sweeps
        && a.exact_passes == b.exact_passes
        && a.converged == b.converged
        && a.exact == b.exact
        && a.idle == b.idle
        && a.stopped == b.stopped
        && OrderedFloat(a.residual) == OrderedFloat(b.residual)
}

pub fn answer(a: Result<BoxOutcome, Refusal>, b: Result<BoxOutcome, Refusal>) -> bool {
    match (a, b) {
        (Err(refusal), Err(other)) => refusal == other,
        (Ok(BoxOutcome::Solved(report)), Ok(BoxOutcome::Solved(other))) => of_solve(report, other),
        (
            Ok(BoxOutcome::Infeasible(cause, rows, report)),
            Ok(BoxOutcome::Infeasible(why, listed, other)),
        ) => cause == why && rows == listed && of_solve(report, other),
        _ => false,
    }
}

pub fn joined(a: Result<SolveReport, Refusal>, b: Result<SolveReport, Refusal>) -> bool {
    match (a, b) {
        (Ok(both), Ok(other)) => report(both, other),
        (Err(refusal), Err(other)) => refusal == other,
        _ => false,
    }
}

pub fn two_floats(a: [f64; 2], b: [f64; 2]) -> bool {
    a.map(OrderedFloat) == b.map(OrderedFloat)
}

// The line's last word.
pub fn print(rt: &impl Print, same: bool) -> io::Result<()> {
    println!(rt; " {}", if same { "same" } else { "differs" })
}

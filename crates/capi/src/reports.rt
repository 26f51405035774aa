// Joins of reports by plain numbers.
ghost use Rattle.std.specs.Prelude.{◌≡◌, ◌∷◌, []};
ghost use Rattle.capi.specs.Reports as report;

use flags::{flag, flagged};
use refusals::Refusal;
use report::SolveReport;

// Read and written by functions, and not by From: a report and an array are both of other crates, and the residual lies
// apart.
#[tactic(auto, unfolding(crate::specs::Reports::read))]
pub fn read(counts: &[u32; 10], residual: f64) -> SolveReport
    ensures { result ≡ report.read counts.now residual }
{
    let [
        increments,
        iterations,
        most_iterations,
        rejected,
        anchors,
        sweeps,
        exact_passes,
        converged,
        exact,
        stopped,
    ] = *counts;
    SolveReport {
        increments,
        iterations,
        most_iterations,
        rejected,
        anchors,
        sweeps,
        exact_passes,
        converged: flagged(converged),
        exact: flagged(exact),
        stopped,
        residual,
    }
}

pub fn write(r: SolveReport, counts: &mut [u32; 10])
    ensures { counts.new ≡ report.written r counts.old }
{
    *counts = [
        r.increments,
        r.iterations,
        r.most_iterations,
        r.rejected,
        r.anchors,
        r.sweeps,
        r.exact_passes,
        flag(r.converged),
        flag(r.exact),
        r.stopped,
    ];
}

// What a join came to, left where C lends room for it: 0, or the number of a refusal and nothing written.
// C is answered a number: here a refusal becomes one.
pub fn leave(
    joined: Result<SolveReport, Refusal>,
    counts: &mut [u32; 10],
    residual: &mut f64,
) -> u32
    ensures { (result ≡ report.number joined) × (counts.new ≡ report.counts_left joined counts.old)
        × (residual.new ∷ [] ≡ report.residual_left joined (residual.old ∷ [])) }
{
    match joined {
        Err(refusal) => refusal.into(),
        Ok(r) => {
            write(r, counts);
            *residual = r.residual;
            0
        }
    }
}

// Reports of solves, joined: report.rs, where a count's sum above 4,294,967,295 is refused, by document 01's number 13.
// Each call is total, and its contract is an equation with a definition of specs/.
#![tactic(auto)]

ghost use Rattle.std.specs.Prelude.{◌≡◌, ◌+◌, ◌≤◌, ◌<◌, MatchResult};
ghost use Rattle.refusals.specs.declared.Refusal.TheVariants.{Join};
ghost use Rattle.report.specs.Joins as joins;

use refusals::Refusal;

// The counts and the residual of a solve, or of several added together.
#[derive(Clone, Copy)]
pub struct SolveReport {
    // Load increments solved.
    pub increments: u32,
    // Proximal steps taken or tried, in all.
    pub iterations: u32,
    // The most steps any one increment took.
    pub most_iterations: u32,
    // Steps the merit test turned back.
    pub rejected: u32,
    // Times the friction anchor moved on along the path.
    pub anchors: u32,
    // Sweeps of the box problems, in all.
    pub sweeps: u32,
    // Exact passes tried, in all.
    pub exact_passes: u32,
    // Rows that the last sweep of a box problem stopped at a bound, in all.
    pub stopped: u32,
    // Whether every increment converged.
    pub converged: bool,
    // Whether every box problem was solved by its exact pass.
    pub exact: bool,
    // The largest residual left at the end of an increment.
    pub residual: f64,
}

impl SolveReport {
    // The report of no solve at all: nothing counted, nothing failed.
    pub const NOTHING: SolveReport = SolveReport {
        increments: 0,
        iterations: 0,
        most_iterations: 0,
        rejected: 0,
        anchors: 0,
        sweeps: 0,
        exact_passes: 0,
        stopped: 0,
        converged: true,
        exact: true,
        residual: 0.0,
    };

    // This increment's report, the increment then going on from where it stopped as `then` reports: one increment, its
    // steps and sweeps added up, and how it ended, `then`'s.
    #[tactic(auto, unfolding(crate::specs::Joins::added, crate::specs::Joins::continued))]
    pub fn continued(self, then: SolveReport) -> Result<SolveReport, Refusal>
        ensures { result ≡ joins.continued self then }
    {
        let added = self.added(then)?;
        Ok(SolveReport {
            increments: self.increments.max(then.increments),
            most_iterations: added.iterations,
            converged: then.converged,
            residual: then.residual,
            ..added
        })
    }

    // This report and `other` together, as one procedure's.
    #[tactic(auto, using(std::proofs::lemmas::Bool::Decides::nat_tests), unfolding(crate::specs::Joins::added, crate::specs::Joins::and, crate::specs::Joins::all_sums_fit, crate::specs::Joins::sum_fits))]
    pub fn and(self, other: SolveReport) -> Result<SolveReport, Refusal>
        ensures { result ≡ joins.and self other }
    {
        let added = self.added(other)?;
        Ok(SolveReport {
            increments: sum(self.increments, other.increments)?,
            most_iterations: self.most_iterations.max(other.most_iterations),
            converged: self.converged & other.converged,
            residual: floats::larger(self.residual, other.residual),
            ..added
        })
    }

    // This report with what both joins add up of it and `other`.
    #[tactic(auto, using(std::proofs::lemmas::Bool::Decides::nat_tests), unfolding(crate::specs::Joins::added, crate::specs::Joins::sums_fit, crate::specs::Joins::sum_fits))]
    fn added(self, other: SolveReport) -> Result<SolveReport, Refusal>
        ensures { result ≡ joins.added self other }
    {
        Ok(SolveReport {
            iterations: sum(self.iterations, other.iterations)?,
            rejected: sum(self.rejected, other.rejected)?,
            anchors: sum(self.anchors, other.anchors)?,
            sweeps: sum(self.sweeps, other.sweeps)?,
            exact_passes: sum(self.exact_passes, other.exact_passes)?,
            stopped: sum(self.stopped, other.stopped)?,
            exact: self.exact & other.exact,
            ..self
        })
    }
}

// The reports joined by `and`, front to back from NOTHING; refused at the first sum too large.
#[tactic(auto, using(std::proofs::lemmas::Grind::common_steps, crate::proofs::Lists::from_refused), unfolding(crate::specs::Joins::all))]
pub fn join_all(reports: &[SolveReport]) -> Result<SolveReport, Refusal>
    ensures { result ≡ joins.all reports.now }
{
    let mut so_far = SolveReport::NOTHING;
    for report in reports {
        so_far = so_far.and(*report)?;
    }
    Ok(so_far)
}

// The sum of two counts, where it is a count.
fn sum(x: u32, y: u32) -> Result<u32, Refusal>
    ensures { MatchResult result
        (λ s. (s ≡ x + y) × (x + y ≤ joins.most))
        (λ e. (e ≡ Join) × (joins.most < x + y)) }
{
    x.checked_add(y).ok_or(Refusal::Join)
}

// A Rattle caller that lends a report, and one that lends a list of them. What they give is what the calls by value
// give.
ghost use Rattle.std.specs.Prelude.{◌≡◌, [], ◌∷◌, length};
ghost use Rattle.boxed.specs.Solve as solve;
ghost use Rattle.report.specs.Joins as joins;
ghost use Rattle.tally.specs.Tally as def;
ghost use Rattle.tallied.specs.Joining as joining;

use refusals::Refusal;
use report::SolveReport;
use tallied::{Sent, Tallied};

// `solve_into` on a tally of its own, which it hands back beside the answer.
// The lists stay apart, as `solve_into` has them, which is lent them as C lends them.
pub fn lend_tally(
    tally: SolveReport,
    sent: Sent,
    u_free: &[f64],
    lo: &[f64],
    hi: &[f64],
    scale: &[f64],
    motion: &[f64],
    tolerance: f64,
    nu: &mut [f64],
    states: &mut [u8],
    rows: &mut [usize],
    workspace: &mut [f64],
) -> Tallied
    ensures { joining.Entered
        (def.tallied tally
        (joining.call (joining.form sent.entry)
        (joining.problem sent.entry u_free.now lo.now hi.now scale.now)
        (solve.watch motion.now tolerance)
        nu.old states.old rows.old (length workspace.old)))
        result.tally result.answer nu.new states.new rows.new
        workspace.old workspace.new }
{
    let mut own = tally;
    let answer = tallied::solve_into(
        &mut own, sent, u_free, lo, hi, scale, motion, tolerance, nu, states, rows, workspace,
    );
    Tallied { tally: own, answer }
}

// `join_all` on a list of its own of three reports.
pub fn lend_list(
    first: SolveReport,
    second: SolveReport,
    third: SolveReport,
) -> Result<SolveReport, Refusal>
    ensures { result ≡ joins.all (first ∷ second ∷ third ∷ []) }
{
    let list = [first, second, third];
    report::join_all(&list)
}

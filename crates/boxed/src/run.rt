// The sweeps of a solve, each with its tests.
ghost use Rattle.std.specs.Prelude.{◌+◌};
ghost use Rattle.box_rows.specs.Lent as lent;
ghost use Rattle.boxed.specs.Solve as solve;
ghost use Rattle.boxed.specs.Private as private;

use crate::{Cause, Counts, Ended, Watch, checkpoints, growth, sweep, tests};
use box_rows::problem::BoxProblem;

// One more sweep, after those counted, and its tests: growth first, then an exact pass where one is due, then the tests
// of motion, residual and ray. Where one of them ends the solve, those after it are not made.
// Its slices are lent one by one: each step takes other ones, or parts of them, so that a struct would be taken apart.
fn turn(
    p: &BoxProblem,
    watch: &Watch,
    states: &mut [u8],
    nu: &mut [f64],
    rows: &mut [usize],
    work: &mut [f64],
    counts: &mut Counts,
) -> Option<Ended>
    requires { private.TurnLent (lent.of p.now) states.old nu.old rows.old work.old counts.old }
    ensures { private.Counted private.SOLVE_END
        (solve.turn solve.SWEEP_CAP (lent.of p.now) (private.watched watch.now) counts.old.sweeps
        (solve.going (solve.iterate nu.old states.old counts.old)))
        rows.old work.old (counts.old.sweeps + 1) (counts.old.passes + 1)
        result nu.new states.new counts.new rows.new work.new }
{
    let e = crate::BEFORE + nu.len();
    counts.stopped = sweep::sweep(p, states, nu, &mut work[crate::BEFORE..e]);
    counts.sweeps += 1;
    if let Some(k) = growth::grown(nu, p.scale, rows) {
        return Some(Ended::Infeasible(Cause::Growth, k));
    }
    let ended = checkpoints::check(p, states, nu, rows, work, counts);
    if ended.is_some() {
        return ended;
    }
    tests::tests(p, watch, states, nu, &work[crate::BEFORE..e], rows)
}

// As many sweeps as the cap allows, or until one ends the solve: how it ended, if it did, and what was counted.
pub fn run(
    p: &BoxProblem,
    watch: &Watch,
    states: &mut [u8],
    nu: &mut [f64],
    rows: &mut [usize],
    work: &mut [f64],
) -> (Option<Ended>, Counts)
    requires { private.TurnLent (lent.of p.now) states.old nu.old rows.old work.old (solve.counts 0 0 0) }
    ensures { private.Worked private.SOLVE_END
        (solve.run solve.SWEEP_CAP (lent.of p.now) (private.watched watch.now)
        (solve.iterate nu.old states.old (solve.counts 0 0 0)) solve.SWEEP_CAP)
        rows.old work.old
        result.0 nu.new states.new result.1 rows.new work.new }
{
    let mut counts = Counts::default();
    for _ in 0..crate::SWEEP_CAP {
        let ended = turn(p, watch, states, nu, rows, work, &mut counts);
        if ended.is_some() {
            return (ended, counts);
        }
    }
    (None, counts)
}

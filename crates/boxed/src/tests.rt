// The tests after a sweep: whether the motion has stopped, whether a residual is left, and whether the multipliers
// still move in the direction of a ray.
ghost use Rattle.std.specs.Prelude.{◌≡◌, ◌/◌, ◌<◌, length};
ghost use Rattle.box_rows.specs.Lent as lent;
ghost use Rattle.exact_pass.specs.Ray.{ray};
ghost use Rattle.boxed.specs.Sweep as sweep;
ghost use Rattle.boxed.specs.Solve as solve;
ghost use Rattle.boxed.specs.Private as private;
ghost use Rattle.boxed.specs.declared.Counts.{Counts};
ghost use Rattle.boxed.specs.declared.Cause.TheVariants as cause;

use crate::{Cause, Ended, Watch};
use box_rows::problem::{BoxProblem, RowAt};

// The largest natural residual over the rows that act. States and multipliers stay apart, as in ending.rt.
#[tactic(auto, unfolding(loops::specs::Loops::turns, crate::specs::Sweep::residual))]
pub fn residual(p: &BoxProblem, states: &[u8], nu: &[f64]) -> f64
    requires { private.Lists (lent.of p.now) states.now nu.now }
    ensures { result ≡ sweep.residual (lent.of p.now) states.now nu.now (length p.now.u_free.now) }
{
    let mut worst = 0.0;
    for (i, state) in states.iter().enumerate() {
        if *state != box_rows::IDLE {
            worst = floats::larger(worst, RowAt { problem: p, nu, i }.residual());
        }
    }
    worst
}

// What a sweep changed: the multipliers after it and before it.
#[derive(Clone, Copy)]
struct Change<'a> {
    nu: &'a [f64],
    before: &'a [f64],
    ghost paired: { length before.now ≡ length nu.now },
}

impl<'a> Change<'a> {
    ghost use Rattle.boxed.specs.Sweep as sweep;

    // How far a coordinate moved, of which `row` has the motion for a unit multiplier of each row.
    #[tactic(auto, unfolding(loops::specs::Loops::turns, crate::specs::Private::coordinate))]
    fn coordinate(&self, row: &[f64]) -> f64
        requires { length row.now ≡ length self.now.nu.now }
        ensures { result ≡ private.coordinate row.now self.now.nu.now self.now.before.now (length self.now.nu.now) }
    {
        let mut s = 0.0;
        for (i, entry) in row.iter().enumerate() {
            s = s + *entry * (self.nu[i] - self.before[i]);
        }
        s
    }

    // The most that a coordinate moved.
    #[tactic(auto, unfolding(loops::specs::Loops::turns, crate::specs::Sweep::moved, crate::specs::Private::coordinate))]
    fn moved(&self, motion: &[f64]) -> f64
        requires { 0 < length self.now.nu.now }
        ensures { result ≡ sweep.moved motion.now self.now.nu.now self.now.before.now
            (length motion.now / length self.now.nu.now) }
    {
        let mut worst = 0.0;
        for row in motion.chunks_exact(self.nu.len()) {
            worst = floats::larger(worst, floats::abs(self.coordinate(row)));
        }
        worst
    }

    // Writes into y the direction in which the multipliers moved.
    fn direction(&self, y: &mut [f64])
        requires { length y.old ≡ length self.now.nu.now }
        ensures { y.new ≡ private.change self.now.nu.now self.now.before.now (length self.now.nu.now) }
    {
        for (i, by) in y.iter_mut().enumerate() {
            *by = self.nu[i] - self.before[i];
        }
    }
}

// Whether the direction in which the sweep moved the multipliers is a ray, which shows that no motion meets every row.
// If so, the rows that fight are put at the front of the row list, and the solve ends as infeasible.
fn ray_test(p: &BoxProblem, states: &[u8], change: &Change, rows: &mut [usize]) -> Option<Ended>
    requires { private.TestLists (lent.of p.now) states.now change.now.nu.now change.now.before.now rows.old }
    ensures { (c : Counts) → private.Ran
        (solve.unless cause.Sweep (solve.iterate change.now.nu.now states.now c)
        (ray (lent.of p.now) states.now
        (private.change change.now.nu.now change.now.before.now (length p.now.u_free.now))))
        rows.old result change.now.nu.now states.now c rows.new }
{
    let n = change.nu.len();
    // Fixed memory: the scratch is as long as the largest problem needs, and its front is in use.
    let mut y = [0.0f64; box_rows::MAX_ROWS];
    change.direction(&mut y[..n]);
    let k = exact_pass::ray_of(p, states, &y[..n], rows)?;
    Some(Ended::Infeasible(Cause::Sweep, k))
}

// How the tests end the solve after a sweep, before which the multipliers were `before`, if they do. Where the motion
// of the sweep is not within the tolerance, they do not. Where it is, the solve has converged if the residual is small
// enough, and otherwise the ray is tried, since multipliers that change while nothing moves may do so without end.
pub fn tests(
    p: &BoxProblem,
    watch: &Watch,
    states: &[u8],
    nu: &[f64],
    before: &[f64],
    rows: &mut [usize],
) -> Option<Ended>
    requires { private.TestLists (lent.of p.now) states.now nu.now before.now rows.old }
    ensures { (c : Counts) → private.Ran
        (solve.tested (lent.of p.now) (private.watched watch.now) before.now
        (solve.going (solve.iterate nu.now states.now c)))
        rows.old result nu.now states.now c rows.new }
{
    let change = Change { nu, before };
    if change.moved(watch.motion) <= watch.tolerance {
        if residual(p, states, nu) <= exact_pass::EXACT_RESIDUAL {
            return Some(Ended::Converged);
        }
        return ray_test(p, states, &change, rows);
    }
    None
}

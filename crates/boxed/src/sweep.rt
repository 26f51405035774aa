// One sweep: each row that acts updates its multiplier, in order, and the rows that are stopped at a bound are counted.
ghost use Rattle.box_rows.specs.Lent as lent;
ghost use Rattle.boxed.specs.Private as private;

use box_rows::problem::{BoxProblem, RowAt};

// Updates the multiplier of every row that acts, and answers how many rows are stopped at a bound. `before` gets the
// multipliers as they were.
pub fn sweep(p: &BoxProblem, states: &[u8], nu: &mut [f64], before: &mut [f64]) -> u32
    requires { private.SweepLists (lent.of p.now) states.now nu.old before.old }
    ensures { private.Swept (lent.of p.now) states.now nu.old nu.new before.new result }
{
    crate::store(nu, before);
    let mut stopped = 0;
    for i in 0..p.n() {
        if states[i] != box_rows::IDLE {
            let v = box_rows::update(RowAt { problem: p, nu, i }.numbers());
            nu[i] = v.value;
            if v.side.is_some() {
                stopped += 1;
            }
        }
    }
    stopped
}

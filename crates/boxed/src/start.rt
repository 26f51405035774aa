// Where a solve starts: a row that cannot act is Idle, and every multiplier is clamped to its box, that of an Idle row
// from 0.
ghost use Rattle.std.specs.Prelude.{length};
ghost use Rattle.box_rows.specs.Lent as lent;
ghost use Rattle.boxed.specs.Sweep as sweep;
ghost use Rattle.boxed.specs.Private as private;

use box_rows::problem::{BoxProblem, ProblemRow};

// Sets the state and clamps the multiplier of every row, and answers how many rows are Idle.
// States and multipliers stay apart, as the caller lends them: a struct of both would be made for this call alone.
#[tactic(auto, unfolding(loops::specs::Loops::turns, crate::specs::Sweep::start))]
pub fn start(p: &BoxProblem, states: &mut [u8], nu: &mut [f64]) -> usize
    requires { private.Lists (lent.of p.now) states.old nu.old }
    ensures { private.Started
        (sweep.start p.now.w.now (length p.now.u_free.now) p.now.lo.now p.now.hi.now
        nu.old states.old (length p.now.u_free.now))
        (length p.now.u_free.now) nu.new states.new result }
{
    let mut idle = 0;
    for i in 0..p.n() {
        let row = ProblemRow { problem: p, i }.entries();
        if box_rows::is_idle(row[i]) {
            states[i] = box_rows::IDLE;
            nu[i] = floats::clamp(0.0, p.lo[i], p.hi[i]).value;
            idle += 1;
        } else {
            states[i] = box_rows::INSIDE;
            nu[i] = floats::clamp(nu[i], p.lo[i], p.hi[i]).value;
        }
    }
    idle
}

// Where a pass starts: each row in the state that its multiplier shows, and a row on a bound exactly there.
ghost use Rattle.std.specs.Prelude.{◌≡◌, ◌+◌, ◌<◌, ◌≤◌, length};
ghost use Rattle.exact_pass.specs.Pass as pass;
ghost use Rattle.exact_pass.specs.Private as private;

use box_rows::problem::{BoxProblem, ProblemRow};
use box_rows::{IDLE, placed, state_of};

// A row in the state that its multiplier shows, with the multiplier of that state; how many rows act up to it.
// The lists that a pass writes are lent one by one: in a struct of two `&mut` (tried), the proof of `run` did not
// close.
#[tactic(auto, unfolding(crate::specs::Private::start_row))]
fn start_row(row: &ProblemRow, states: &mut [u8], nu: &mut [f64], acting: usize) -> usize
    requires states { length states.old ≡ length row.now.problem.now.u_free.now }
    requires multipliers { length nu.old ≡ length row.now.problem.now.u_free.now }
    requires count { acting ≤ row.now.i }
    ensures { private.Started
        (private.start_row row.now.problem.now.lo.now row.now.problem.now.hi.now row.now.problem.now.scale.now row.now.i
        (private.started nu.old states.old acting))
        (row.now.i + 1) nu.new states.new result }
{
    let p = row.problem;
    let i = row.i;
    if states[i] == IDLE {
        return acting;
    }
    let s = u8::from(state_of(p.lo[i], p.hi[i], p.scale[i], nu[i]));
    states[i] = s;
    nu[i] = placed(p.lo[i], p.hi[i], s, nu[i]);
    acting + 1
}

// States and multipliers of all rows at the start of a pass; how many rows act.
#[tactic(auto, using(crate::proofs::Loops::turning), unfolding(crate::specs::Pass::start, crate::specs::Private::start_row))]
pub fn start(p: &BoxProblem, states: &mut [u8], nu: &mut [f64]) -> usize
    requires states { length states.old ≡ length p.now.u_free.now }
    requires multipliers { length nu.old ≡ length p.now.u_free.now }
    ensures { private.Started
        (pass.start p.now.lo.now p.now.hi.now p.now.scale.now nu.old states.old
        (length p.now.u_free.now))
        (length p.now.u_free.now) nu.new states.new result }
{
    let mut acting = 0;
    for i in 0..p.n() {
        acting = start_row(&ProblemRow { problem: p, i }, states, nu, acting);
    }
    acting
}

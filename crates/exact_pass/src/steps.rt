// One step of a pass, and the run of them.
ghost use Rattle.std.specs.Prelude.{◌≡◌, ◌≤◌, ◌<◌, List, length, Float};
ghost use Rattle.box_rows.specs.Lent.{of};
ghost use Rattle.exact_pass.specs.Pass as pass;
ghost use Rattle.exact_pass.specs.Private as private;

use crate::free_rows::Direction;
use crate::row_values::RowValues;
use crate::{
    Cycle, DIRECTION, Exact, MARKED, cycles, direction, free_rows, ratio, rays, release, start,
};
use box_rows::problem::BoxProblem;
use box_rows::{Block, MAX_ROWS, placed};

// The direction of all rows, in place of zeros, from that of the free rows.
#[tactic(auto, using(crate::proofs::Loops::turning), unfolding(crate::specs::Pass::scattered))]
fn scatter(d: &Direction, all: &mut [f64])
    requires { length all.old ≡ length d.now.problem.now.u_free.now }
    ensures { all.new ≡ pass.scattered d.now.rows.now d.now.y.now all.old (length d.now.rows.now) }
{
    for (row, by) in d.rows.iter().zip(d.y) {
        all[*row as usize] = *by;
    }
}

// The direction y of the free rows meets no bound: no motion meets every row, or the pass has failed.
fn unbounded(d: &Direction, states: &[u8], rows: &mut [usize]) -> Exact
    requires states { length states.now ≡ length d.now.problem.now.u_free.now }
    requires list { length d.now.problem.now.u_free.now ≤ length rows.old }
    ensures { (v : List Float)
        → private.Passed
        (private.unbounded (of d.now.problem.now) (pass.trial v states.now) d.now.rows.now d.now.y.now)
        rows.old (Some result) v states.now rows.new }
{
    let problem = d.problem;
    // An array of which a part is used: there is no heap, and a problem has at most so many rows.
    let mut zeros = [0.0f64; MAX_ROWS];
    let values = &mut zeros[..problem.n()];
    scatter(d, values);
    let motion = RowValues {
        problem,
        states,
        values,
    };
    match rays::ray(&motion, rows) {
        Some(c) => Exact::Infeasible(c),
        None => Exact::Failed,
    }
}

// The row that blocks a step is put on its bound.
// The row goes by its number: a ProblemRow beside it would hold again the number that the Block holds.
// The lists are lent one by one, here and in `take_step`, as in start.rt.
#[tactic(auto, unfolding(crate::specs::Pass::hold))]
fn hold(p: &BoxProblem, states: &mut [u8], nu: &mut [f64], r: Block)
    requires row { r.row < length p.now.u_free.now }
    requires states { length states.old ≡ length p.now.u_free.now }
    requires multipliers { length nu.old ≡ length p.now.u_free.now }
    ensures { pass.trial nu.new states.new
        ≡ pass.hold p.now.lo.now p.now.hi.now (pass.trial nu.old states.old) r }
{
    let a = r.row;
    let state = u8::from(r.state);
    nu[a] = placed(p.lo[a], p.hi[a], state, nu[a]);
    states[a] = state;
}

// The step of the free rows in the direction y, as long as the boxes let it be. The row that blocks it is put on its
// bound; where none does, a row on a bound is released.
fn take_step(
    d: &Direction,
    inconsistent: bool,
    states: &mut [u8],
    nu: &mut [f64],
    rows: &mut [usize],
) -> Option<Exact>
    requires states { length states.old ≡ length d.now.problem.now.u_free.now }
    requires multipliers { length nu.old ≡ length d.now.problem.now.u_free.now }
    requires list { length d.now.problem.now.u_free.now ≤ length rows.old }
    ensures { private.Passed
        (private.take_step (of d.now.problem.now)
        (pass.trial nu.old states.old) d.now.rows.now d.now.y.now inconsistent)
        rows.old result nu.new states.new rows.new }
{
    let p = d.problem;
    let r = ratio::ratio_test(d, nu, direction::longest(inconsistent));
    if !floats::is_finite(r.alpha) {
        return Some(unbounded(d, states, rows));
    }
    ratio::advance(d, r.alpha, nu);
    match r.block {
        None => release::release(p, states, nu),
        Some(block) => {
            hold(p, states, nu, block);
            None
        }
    }
}

// One step: where some row is free, to the target of the free rows, or in the direction that their system leaves. How
// the pass ends with it, if it does.
fn step(
    p: &BoxProblem,
    states: &mut [u8],
    nu: &mut [f64],
    rows: &mut [usize],
    work: &mut [f64],
) -> Option<Exact>
    requires { private.RunLent (of p.now) states.old nu.old rows.old work.old }
    ensures { private.Stepped
        (pass.step_of (of p.now)
        (pass.trial nu.old states.old)
        (pass.free_rows states.old (length p.now.u_free.now)))
        rows.old work.old result nu.new states.new rows.new
        work.new }
{
    let list = free_rows::free_rows(states);
    let free = list.as_slice();
    if free.is_empty() {
        return release::release(p, states, nu);
    }
    let trial = RowValues {
        problem: p,
        states,
        values: nu,
    };
    let inconsistent = direction::of_free_rows(&trial, free, work);
    let d = Direction {
        problem: p,
        rows: free,
        y: &work[DIRECTION..DIRECTION + free.len()],
    };
    take_step(&d, inconsistent, states, nu, rows)
}

// A pass makes at most 8 steps for each row that acts, and 8. Each is compared with the multipliers and states marked,
// so that a cycle is found.
pub fn run(
    p: &BoxProblem,
    states: &mut [u8],
    nu: &mut [f64],
    rows: &mut [usize],
    work: &mut [f64],
) -> Exact
    requires { private.RunLent (of p.now) states.old nu.old rows.old work.old }
    ensures { private.Ran (of p.now)
        states.old nu.old rows.old work.old result nu.new
        states.new rows.new work.new }
{
    let acting = start::start(p, states, nu);
    let most = 8 * acting + 8;
    // An array, as there is no heap.
    let mut marks = [0u8; MAX_ROWS];
    crate::store(nu, work, MARKED);
    crate::store(states, &mut marks, 0);
    let mut m = Cycle {
        since: 0,
        span: 2,
        remaining: most,
    };
    // A while: where a cycle is found, what remains is cut to a remainder, which no range counts.
    while m.remaining > 0 {
        if let Some(e) = step(p, states, nu, rows, work) {
            return e;
        }
        m = cycles::after_step(nu, states, work, &mut marks, m);
    }
    Exact::Failed
}

// The exact pass of boxed.rs: a primal active-set method from the multipliers of a sweep. `step` reads as the Rust's
// loop body, and the modules are its parts.
#![tactic(auto)]

ghost use Rattle.std.specs.Prelude.{◌≡◌, ◌+◌, ◌≤◌, length};
ghost use Rattle.box_rows.specs.Lent.{of};
ghost use Rattle.box_rows.specs.Rows as box;
ghost use Rattle.exact_pass.specs.Private as private;
ghost use Rattle.exact_pass.specs.Promise as promise;

use box_rows::problem::BoxProblem;
use row_values::RowValues;

// The steps of a pass: start, free_rows, system, direction, ratio, release, rays where no bound is met, and cycles;
// steps is one step and the run of them; row_values is a state and a value for each row.
mod cycles;
mod direction;
mod free_rows;
mod ratio;
mod rays;
mod release;
mod row_values;
mod start;
mod steps;
mod system;

// The largest natural residual, over its row's scale, at which the pass accepts its multipliers.
pub const EXACT_RESIDUAL: f64 = 1e-9;

// How many times its row's scale a multiplier may grow before no motion counts as meeting every row.
pub const DIVERGENCE: f64 = 1e6;

// The workspace of a pass: least norm's 1,056 values, the right-hand side of the free rows, whose place their direction
// takes once it is known, and the multipliers marked to find a cycle.
pub const RIGHT_HAND_SIDE: usize = 1056;

pub const DIRECTION: usize = 1056;

pub const MARKED: usize = 1088;

pub const WORKSPACE: usize = 1120;

// What a pass found. Of the rows that no motion meets the number is told; they stand at the front of the row list: C
// lends that list, and is told how many of them are at its front.
#[derive(Clone, Copy, PartialEq, Eq)]
pub enum Exact {
    Found,
    Failed,
    Infeasible(usize),
}

// What a solution leaves of two rows of its system.
#[derive(Clone, Copy)]
pub struct Residuals {
    pub first: f64,
    pub second: f64,
}

// The row on a bound pushed inside the hardest, if there is one, and its natural residual.
#[derive(Clone, Copy)]
pub struct Worst {
    pub residual: f64,
    pub row: Option<usize>,
}

// How many rows a ray has, and the farthest of them over its scale. The rows stand in a list beside it, so that this pair
// of numbers can be copied.
#[derive(Clone, Copy)]
pub struct RayRows {
    pub count: usize,
    pub farthest: f64,
}

// The counters of Brent's method: how many steps were made since multipliers and states were marked, how many are made
// before they are marked anew, and how many remain of the pass.
#[derive(Clone, Copy)]
pub struct Cycle {
    pub since: usize,
    pub span: usize,
    pub remaining: usize,
}

// A copy of `from` in `to`, from place a on. By a loop, as few values are copied: with `copy_from_slice`, which was
// slower here, a solve of one row took 150 ns in place of 137, and one of two rows 246 in place of 232.
fn store<T: Copy>(from: &[T], to: &mut [T], a: usize)
    requires { a + length from.now ≤ length to.old }
    ensures { private.Copied from.now a to.old to.new }
{
    for (i, value) in from.iter().enumerate() {
        to[a + i] = *value;
    }
}

// Whether there are a state and a value for each row of the problem, and a row list long enough.
fn fits(p: &BoxProblem, states: usize, values: usize, rows: usize) -> bool
    ensures { result ≡ promise.fits (of p.now) states values rows }
{
    let n = p.n();
    states == n && values == n && n <= rows
}

// From the multipliers in nu the exact solution, in their place, with the states that the pass leaves; or the rows
// of a ray, on which the problem falls without end, at the front of `rows`. A call whose lists do not fit, or whose
// workspace is too short, fails and changes nothing.
// The lists stay apart, as a solve is lent them; who has a BoxProblem of them calls `pass_of`.
pub fn exact_pass(
    w: &[f64],
    u_free: &[f64],
    lo: &[f64],
    hi: &[f64],
    scale: &[f64],
    states: &mut [u8],
    nu: &mut [f64],
    rows: &mut [usize],
    workspace: &mut [f64],
) -> Exact
    ensures { promise.Left
        (box.problem w.now u_free.now lo.now hi.now scale.now)
        states.old nu.old rows.old workspace.old
        result states.new nu.new rows.new workspace.new }
{
    match BoxProblem::new(w, u_free, lo, hi, scale) {
        Some(p) => pass_of(&p, states, nu, rows, workspace),
        None => Exact::Failed,
    }
}

// The same of a problem whose lists fit one another.
pub fn pass_of(
    p: &BoxProblem,
    states: &mut [u8],
    nu: &mut [f64],
    rows: &mut [usize],
    workspace: &mut [f64],
) -> Exact
    ensures { promise.Left (of p.now)
        states.old nu.old rows.old workspace.old
        result states.new nu.new rows.new workspace.new }
{
    if workspace.len() >= WORKSPACE && fits(p, states.len(), nu.len(), rows.len()) {
        return steps::run(p, states, nu, rows, workspace);
    }
    Exact::Failed
}

// The rows along whose direction y the problem falls without end, at the front of `rows`, and how many. Where there are
// none, or the lists do not fit, nothing is changed.
// The lists stay apart, as a solve is lent them; who has a BoxProblem of them calls `ray_of`.
pub fn ray(
    w: &[f64],
    u_free: &[f64],
    lo: &[f64],
    hi: &[f64],
    scale: &[f64],
    states: &[u8],
    y: &[f64],
    rows: &mut [usize],
) -> Option<usize>
    ensures { promise.Front
        (promise.ray_reply
        (box.problem w.now u_free.now lo.now hi.now scale.now)
        states.now y.now rows.old)
        rows.old result rows.new }
{
    let p = BoxProblem::new(w, u_free, lo, hi, scale)?;
    ray_of(&p, states, y, rows)
}

// The same of a problem whose lists fit one another.
pub fn ray_of(p: &BoxProblem, states: &[u8], y: &[f64], rows: &mut [usize]) -> Option<usize>
    ensures { promise.Front
        (promise.ray_reply (of p.now) states.now y.now rows.old)
        rows.old result rows.new }
{
    if fits(p, states.len(), y.len(), rows.len()) {
        let motion = RowValues {
            problem: p,
            states,
            values: y,
        };
        return rays::ray(&motion, rows);
    }
    None
}

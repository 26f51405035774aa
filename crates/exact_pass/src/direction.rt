// The direction of a step: to the target or, where there is none, what its solution leaves.
// The lists that are written are lent beside the free rows, for the reason that system.rt gives.
ghost use Rattle.std.specs.Prelude.{◌≡◌, ◌≤◌, ◌*◌, length};
ghost use Rattle.exact_pass.specs.Pass as pass;
ghost use Rattle.exact_pass.specs.Private as private;
ghost use Rattle.exact_pass.specs.Below.{Below};

use crate::free_rows::{FreeRows, Solution};
use crate::row_values::RowValues;
use crate::{DIRECTION, RIGHT_HAND_SIDE, system};
use box_rows::MAX_ROWS;

// The scratch of a step is for at most SMALL, MEDIUM or MAX_ROWS free rows, so that a step with few of them does not
// clear nine kilobytes.
const SMALL: usize = 2;

const MEDIUM: usize = 8;

// y is what the solution z leaves; where there is a target, it becomes the direction to it.
#[tactic(auto, using(crate::proofs::Loops::filling), unfolding(crate::specs::Pass::direction))]
fn direction(inconsistent: bool, s: &Solution, y: &mut [f64])
    requires place { length y.old ≡ length s.now.free.now.rows.now }
    ensures { y.new
        ≡ pass.direction inconsistent s.now.free.now.trial.problem.now.scale.now s.now.free.now.rows.now s.now.z.now
        s.now.free.now.trial.values.now y.old }
{
    if inconsistent {
        return;
    }
    let trial = s.free.trial;
    for (i, row) in s.free.rows.iter().enumerate() {
        let a = *row as usize;
        y[i] = trial.problem.scale[a] * s.z[i] - trial.values[a];
    }
}

// The direction of the free rows, left in the workspace: to the solution z of least norm of their system, or what that
// leaves of it, where it is too much; whether it is. m, y and z are scratch for as many rows as are free.
// The workspace stays a slice: an array cut off it would be put together again with the rest in each step.
fn from_system(
    free: &FreeRows,
    m: &mut [f64],
    y: &mut [f64],
    z: &mut [f64],
    work: &mut [f64],
) -> bool
    requires workspace { 1120 ≤ length work.old }
    requires matrix { length m.old ≡ length free.now.rows.now * length free.now.rows.now }
    requires direction { length y.old ≡ length free.now.rows.now }
    requires solution { length z.old ≡ length free.now.rows.now }
    ensures { private.DirectedTo free.now.trial free.now.rows.now work.old result work.new }
{
    // A copy of its own: behind the reference each turn of a loop that writes would read it again.
    let free = *free;
    system::right_hand_side(&free, y);
    crate::store(y, work, RIGHT_HAND_SIDE);
    system::matrix(&free, m);
    system::solve(m, y, z, work);
    let solution = Solution { free: &free, z };
    let inconsistent = system::residual(&solution, work, y);
    direction(inconsistent, &solution, y);
    crate::store(y, work, DIRECTION);
    inconsistent
}

// The same in scratch for N rows, of NN entries.
fn in_scratch<const N: usize, const NN: usize>(free: &FreeRows, work: &mut [f64]) -> bool
    requires workspace { 1120 ≤ length work.old }
    requires few { length free.now.rows.now ≤ N }
    requires square { N * N ≤ NN }
    requires most { NN ≤ 1024 }
    ensures { private.DirectedTo free.now.trial free.now.rows.now work.old result work.new }
{
    // Arrays of which parts are used: there is no heap.
    let k = free.rows.len();
    let mut m = [0.0f64; NN];
    let mut y = [0.0f64; N];
    let mut z = [0.0f64; N];
    from_system(free, &mut m[..k * k], &mut y[..k], &mut z[..k], work)
}

// The direction of the free rows, left in the workspace, and whether their system is inconsistent: in scratch of the
// smallest size that holds them.
pub fn of_free_rows(trial: &RowValues, rows: &[u8], work: &mut [f64]) -> bool
    requires below { Below (length trial.now.problem.now.u_free.now) rows.now }
    requires few { length rows.now ≤ 32 }
    requires workspace { 1120 ≤ length work.old }
    ensures { private.DirectedTo trial.now rows.now work.old result work.new }
{
    let free = FreeRows {
        trial: *trial,
        rows,
    };
    let k = rows.len();
    if k <= SMALL {
        return in_scratch::<SMALL, 4>(&free, work);
    }
    if k <= MEDIUM {
        return in_scratch::<MEDIUM, 64>(&free, work);
    }
    in_scratch::<MAX_ROWS, 1024>(&free, work)
}

// The longest step: to the target, or without end.
#[tactic(auto, unfolding(crate::specs::Pass::longest))]
pub fn longest(inconsistent: bool) -> f64
    ensures { result ≡ pass.longest inconsistent }
{
    if inconsistent { f64::INFINITY } else { 1.0 }
}

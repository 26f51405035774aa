// The free rows: those strictly inside their boxes (`stuck` in boxed.rs).
ghost use Rattle.std.specs.Prelude.{◌≡◌, ◌≤◌, length};
ghost use Rattle.exact_pass.specs.Pass as pass;
ghost use Rattle.exact_pass.specs.Below.{Below};

use crate::row_values::RowValues;
use arrayvec::ArrayVec;
use box_rows::problem::{BoxProblem, ProblemRow};
use box_rows::{INSIDE, MAX_ROWS};

// The free rows of the states and multipliers that a pass tries, by their numbers, a byte each.
#[derive(Clone, Copy)]
pub struct FreeRows<'a> {
    pub trial: RowValues<'a, 'a, 'a, 'a>,
    pub rows: &'a [u8],
    pub ghost below: { Below (length trial.problem.now.u_free.now) rows.now },
    pub ghost few: { length rows.now ≤ 32 },
}

impl<'a> FreeRows<'a> {
    ghost use Rattle.std.specs.Prelude.{get_or, ◌<◌};
    ghost use Rattle.box_rows.specs.Rows as box;

    // The row of W of the k-th of them.
    pub fn row(&self, k: usize) -> &'a [f64]
        requires { k < length self.now.rows.now }
        ensures row { result.now
            ≡ box.row self.now.trial.problem.now.w.now (length self.now.trial.problem.now.u_free.now)
            (get_or self.now.rows.now k 0) }
        ensures long { length result.now ≡ length self.now.trial.problem.now.u_free.now }
    {
        ProblemRow {
            problem: self.trial.problem,
            i: self.rows[k] as usize,
        }
        .entries()
    }
}

// The solution of their system, a value for each of them.
#[derive(Clone, Copy)]
pub struct Solution<'a> {
    pub free: &'a FreeRows<'a>,
    pub z: &'a [f64],
    pub ghost value_each: { length z.now ≡ length free.now.rows.now },
}

// A direction of theirs, by how far each of them moves.
#[derive(Clone, Copy)]
pub struct Direction<'a> {
    pub problem: &'a BoxProblem<'a>,
    pub rows: &'a [u8],
    pub y: &'a [f64],
    pub ghost below: { Below (length problem.now.u_free.now) rows.now },
    pub ghost value_each: { length y.now ≡ length rows.now },
}

// Their numbers, rising.
#[tactic(auto, using(crate::proofs::Rows::gathering))]
pub fn free_rows(states: &[u8]) -> ArrayVec<u8, MAX_ROWS>
    requires { length states.now ≤ 32 }
    ensures { result.items ≡ pass.free_rows states.now (length states.now) }
{
    let mut free = ArrayVec::new();
    for (i, state) in states.iter().enumerate() {
        if *state == INSIDE {
            free.push(i as u8);
        }
    }
    free
}

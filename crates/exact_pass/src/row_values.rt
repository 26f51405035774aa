// A state and a value for each row of a problem.
ghost use Rattle.std.specs.Prelude.{◌≡◌, length};

use box_rows::problem::BoxProblem;

// The values are the multipliers that a pass tries, or a direction.
#[derive(Clone, Copy)]
pub struct RowValues<'p, 'a, 's, 'v> {
    pub problem: &'p BoxProblem<'a>,
    pub states: &'s [u8],
    pub values: &'v [f64],
    pub ghost state_each: { length states.now ≡ length problem.now.u_free.now },
    pub ghost value_each: { length values.now ≡ length problem.now.u_free.now },
}

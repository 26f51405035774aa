// The release: of the rows on a bound whose row sum pushes them inside, the one of largest natural residual is freed,
// the first of equals.
ghost use Rattle.std.specs.Prelude.{◌≡◌, ◌<◌, List, ℕ, length};
ghost use Rattle.box_rows.specs.Lent.{of};
ghost use Rattle.box_rows.specs.Rows as box;
ghost use Rattle.exact_pass.specs.Pass as pass;
ghost use Rattle.exact_pass.specs.Private as private;

use crate::row_values::RowValues;
use crate::{EXACT_RESIDUAL, Exact, Worst};
use box_rows::problem::{BoxProblem, RowAt};
use box_rows::{IDLE, INSIDE, natural_residual, pushed};

// Row i with the natural residual r, if that is larger.
#[tactic(auto, unfolding(crate::specs::Private::worse))]
fn worse(i: usize, r: f64, worst: Worst) -> Worst
    ensures { result ≡ private.worse i r worst }
{
    if r > worst.residual {
        return Worst {
            residual: r,
            row: Some(i),
        };
    }
    worst
}

// The worst row, one more considered, of this state: only a row on a bound that is pushed inside can be released.
#[tactic(auto, unfolding(crate::specs::Private::release_row, box_rows::specs::Rows::pushed, box_rows::specs::Rows::residual_at))]
fn release_row(state: u8, row: &RowAt, worst: Worst) -> Worst
    ensures { (st : List ℕ) → box.state st row.now.i ≡ state
        → result ≡ private.release_row (of row.now.problem.now) st row.now.nu.now row.now.i worst }
{
    if state == INSIDE || state == IDLE {
        return worst;
    }
    let numbers = row.numbers();
    if pushed(state, numbers.u) {
        return worse(
            row.i,
            natural_residual(numbers, row.problem.scale[row.i]),
            worst,
        );
    }
    worst
}

// The row to release, if there is one.
#[tactic(auto, using(crate::proofs::Loops::turning))]
fn worst_row(t: &RowValues) -> Option<usize>
    ensures { result
        ≡ (private.worst_row (of t.now.problem.now) t.now.states.now t.now.values.now
        (length t.now.problem.now.u_free.now)).row }
{
    let mut worst = Worst {
        residual: EXACT_RESIDUAL,
        row: None,
    };
    for (i, state) in t.states.iter().enumerate() {
        let row = RowAt {
            problem: t.problem,
            nu: t.values,
            i,
        };
        worst = release_row(*state, &row, worst);
    }
    worst.row
}

// Where no row is left to free, the multipliers meet every condition of the problem.
// The lists are lent one by one, as in start.rt.
pub fn release(p: &BoxProblem, states: &mut [u8], nu: &[f64]) -> Option<Exact>
    requires states { length states.old ≡ length p.now.u_free.now }
    requires multipliers { length nu.now ≡ length p.now.u_free.now }
    ensures { (r : List ℕ)
        → private.Passed
        (pass.release (of p.now) (pass.trial nu.now states.old))
        r result nu.now states.new r }
{
    let trial = RowValues {
        problem: p,
        states,
        values: nu,
    };
    match worst_row(&trial) {
        None => Some(Exact::Found),
        Some(i) => {
            states[i] = INSIDE;
            None
        }
    }
}

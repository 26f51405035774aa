// The ratio test, and the step that it allows. The multipliers stay beside the direction, since the step writes them.
ghost use Rattle.std.specs.Prelude.{◌≡◌, length};
ghost use Rattle.exact_pass.specs.Pass as pass;

use crate::free_rows::Direction;
use box_rows::Blocking;

// How far the boxes let the free rows go in the direction y, and no farther than alpha.
#[tactic(auto, using(crate::proofs::Loops::turning), unfolding(crate::specs::Pass::ratio_test))]
pub fn ratio_test(d: &Direction, nu: &[f64], alpha: f64) -> Blocking
    requires multipliers { length nu.now ≡ length d.now.problem.now.u_free.now }
    ensures { result ≡ pass.ratio_test d.now.problem.now.lo.now d.now.problem.now.hi.now d.now.rows.now nu.now
        d.now.y.now alpha (length d.now.rows.now) }
{
    let p = d.problem;
    let mut r = Blocking { alpha, block: None };
    for (row, by) in d.rows.iter().zip(d.y) {
        let a = *row as usize;
        if let Some(nearer) = box_rows::ratio_row(a, nu[a], *by, p.lo[a], p.hi[a], r.alpha) {
            r = nearer;
        }
    }
    r
}

// The free rows moved by alpha times y.
#[tactic(auto, using(crate::proofs::Loops::turning), unfolding(crate::specs::Pass::advance))]
pub fn advance(d: &Direction, alpha: f64, nu: &mut [f64])
    requires multipliers { length nu.old ≡ length d.now.problem.now.u_free.now }
    ensures { nu.new ≡ pass.advance d.now.rows.now d.now.y.now alpha nu.old (length d.now.rows.now) }
{
    for (row, by) in d.rows.iter().zip(d.y) {
        let a = *row as usize;
        nu[a] = nu[a] + alpha * *by;
    }
}

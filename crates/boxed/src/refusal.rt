// Document 01's refusals of a solve, 5 to 10 in their order.
ghost use Rattle.std.specs.Prelude.{◌≡◌, not, ◌&&◌, ◌||◌, ◌%◌, ltb, eqb, length};
ghost use Rattle.std.specs.Result.{result_err};
ghost use Rattle.loops.specs.Loops as loops;
ghost use Rattle.box_rows.specs.Rows as box;
ghost use Rattle.boxed.specs.Solve as solve;
ghost use Rattle.boxed.specs.Private as private;

use crate::BoxSolver;
use refusals::Refusal;

// More than 32 rows, or motion of more than 2,048 values.
pub fn too_large(n: usize, motion: usize) -> bool
    ensures { result ≡ (ltb box.MAX_ROWS n || ltb solve.MAX_MOTION motion) }
{
    n > box_rows::MAX_ROWS || motion > crate::MAX_MOTION
}

// Bounds, scales or multipliers that are not one for each row.
fn unequal(lo: usize, hi: usize, scale: usize, nu: usize, n: usize) -> bool
    ensures { result ≡ not (eqb lo n && eqb hi n && eqb scale n && eqb nu n) }
{
    lo != n || hi != n || scale != n || nu != n
}

// Whether a scale is finite and above 0.
#[tactic(auto, unfolding(crate::specs::Private::good_scale))]
fn good_scale(s: f64) -> bool
    ensures { result ≡ private.good_scale s }
{
    floats::is_finite(s) && s > 0.0
}

// Whether every scale is.
fn good_scales(scale: &[f64]) -> bool
    ensures { result ≡ loops.every (private.good_scale_at scale.now) (length scale.now) }
{
    scale.iter().all(|s| good_scale(*s))
}

// Motion that is no whole number of rows.
fn uneven(motion: usize, n: usize) -> bool
    ensures { result ≡ (ltb 0 n && not (eqb (motion % n) 0)) }
{
    n > 0 && motion % n != 0
}

// A workspace, states or a row list that are too short.
fn too_short(workspace: usize, states: usize, rows: usize, n: usize) -> bool
    ensures { result ≡ (ltb workspace solve.WORKSPACE || ltb states n || ltb rows n) }
{
    workspace < crate::WORKSPACE || states < n || rows < n
}

impl BoxSolver {
    // How `solve` refuses such a call, or that it takes it. `workspace` is the length of the workspace.
    // The lists stay apart, as in `solve`: C lends them so.
    #[tactic(auto, unfolding(crate::specs::Solve::refusal, crate::specs::Private::good_scale))]
    pub fn refusal(
        w: &[f64],
        u_free: &[f64],
        lo: &[f64],
        hi: &[f64],
        scale: &[f64],
        motion: &[f64],
        nu: &[f64],
        states: &[u8],
        rows: &[usize],
        workspace: usize,
    ) -> Result<(), Refusal>
        ensures { result_err result ≡ solve.refusal
            (box.problem w.now u_free.now lo.now hi.now scale.now)
            motion.now nu.now states.now rows.now workspace }
    {
        let n = u_free.len();
        if too_large(n, motion.len()) {
            return Err(Refusal::TooLarge);
        }
        if w.len() != n * n {
            return Err(Refusal::NotSquare);
        }
        if unequal(lo.len(), hi.len(), scale.len(), nu.len(), n) {
            return Err(Refusal::Unequal);
        }
        if !good_scales(scale) {
            return Err(Refusal::Scale);
        }
        if uneven(motion.len(), n) {
            return Err(Refusal::Motion);
        }
        if too_short(workspace, states.len(), rows.len(), n) {
            return Err(Refusal::Short);
        }
        Ok(())
    }
}

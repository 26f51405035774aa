// The matrix of a solve, in either of the forms in which it is sent.
ghost use Rattle.std.specs.Prelude.{◌≡◌, length};
ghost use Rattle.std.specs.Result.{result_err};
ghost use Rattle.boxed.specs.Solve as solve;
ghost use Rattle.triangle.specs.Triangle as triangle;

use boxed::{BoxOutcome, BoxSolver};
use refusals::Refusal;

// W by rows, or a symmetric W as its lower triangle by rows.
#[derive(Clone, Copy)]
pub enum Sent<'a> {
    Whole(&'a [f64]),
    Triangle(&'a [f64]),
}

impl<'a> Sent<'a> {
    ghost use Rattle.tally.specs.Tally as def;
    ghost use Rattle.tallied.specs.Joining as joining;

    // How the solve by itself is refused, or that it is taken. `room` is the length of the workspace.
    // The lists stay apart, here and in `solve`, as in `BoxSolver::solve`: C lends them so.
    #[inline(always)]
    #[tactic(auto, unfolding(triangle::specs::Triangle::refusal_of))]
    pub fn refusal(
        self,
        u_free: &[f64],
        lo: &[f64],
        hi: &[f64],
        scale: &[f64],
        motion: &[f64],
        nu: &[f64],
        states: &[u8],
        rows: &[usize],
        room: usize,
    ) -> Result<(), Refusal>
        ensures { result_err result ≡ triangle.refusal_of (joining.form self.entry)
            (joining.problem self.entry u_free.now lo.now hi.now scale.now)
            motion.now nu.now states.now rows.now room }
    {
        match self {
            Sent::Whole(w) => BoxSolver::refusal(
                w, u_free, lo, hi, scale, motion, nu, states, rows, room,
            ),
            Sent::Triangle(t) => triangle::refusal(
                t, u_free, lo, hi, scale, motion, nu, states, rows, room,
            ),
        }
    }

    // The solve by itself. Where the form is known, as in a call for C, the other's path and its stack fall away.
    #[inline(always)]
    #[tactic(auto, unfolding(tally::specs::Tally::alone, triangle::specs::Triangle::refusal_of, triangle::specs::Triangle::triangle_reply, boxed::specs::Solve::solve_reply))]
    pub fn solve(
        self,
        u_free: &[f64],
        lo: &[f64],
        hi: &[f64],
        scale: &[f64],
        motion: &[f64],
        tolerance: f64,
        nu: &mut [f64],
        states: &mut [u8],
        rows: &mut [usize],
        workspace: &mut [f64],
    ) -> Result<BoxOutcome, Refusal>
        ensures { solve.Left
            (def.alone (joining.call (joining.form self.entry)
            (joining.problem self.entry u_free.now lo.now hi.now scale.now)
            (solve.watch motion.now tolerance)
            nu.old states.old rows.old (length workspace.old)))
            result nu.new states.new rows.new workspace.old workspace.new }
    {
        match self {
            Sent::Whole(w) => BoxSolver::solve(
                w, u_free, lo, hi, scale, motion, tolerance, nu, states, rows, workspace,
            ),
            Sent::Triangle(t) => triangle::solve(
                t, u_free, lo, hi, scale, motion, tolerance, nu, states, rows, workspace,
            ),
        }
    }
}

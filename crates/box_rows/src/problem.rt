// The problem that a solve is lent.
ghost use Rattle.std.specs.Prelude.{◌≡◌, ◌<◌, IsTrue, MatchOption, not, length};
ghost use Rattle.box_rows.specs.Rows as box;
ghost use Rattle.box_rows.specs.Rows.{Sized};

use crate::{Row, natural_residual, row_sum};

// A problem's lists, where they fit one another: W by rows, and for each row its free motion, its bounds and its scale.
#[derive(Clone, Copy)]
pub struct BoxProblem<'a> {
    pub w: &'a [f64],
    pub u_free: &'a [f64],
    pub lo: &'a [f64],
    pub hi: &'a [f64],
    pub scale: &'a [f64],
    pub ghost sized: { Sized (length u_free.now) w.now lo.now hi.now scale.now },
}

impl<'a> BoxProblem<'a> {
    ghost use Rattle.box_rows.specs.Lent as lent;

    // The problem of the lists, if they fit one another.
    pub fn new(
        w: &'a [f64],
        u_free: &'a [f64],
        lo: &'a [f64],
        hi: &'a [f64],
        scale: &'a [f64],
    ) -> Option<BoxProblem<'a>>
        ensures { let p = box.problem w.now u_free.now lo.now hi.now scale.now in
            MatchOption result (IsTrue (not (box.sized p))) (λ q. lent.of q ≡ p) }
    {
        let n = u_free.len();
        let few = n <= crate::MAX_ROWS;
        if few && w.len() == n * n && lo.len() == n && hi.len() == n && scale.len() == n {
            return Some(BoxProblem {
                w,
                u_free,
                lo,
                hi,
                scale,
            });
        }
        None
    }

    // How many rows it has.
    pub fn n(&self) -> usize
        ensures { result ≡ length self.now.u_free.now }
    {
        self.u_free.len()
    }
}

// Row i of a problem.
#[derive(Clone, Copy)]
pub struct ProblemRow<'p, 'a> {
    pub problem: &'p BoxProblem<'a>,
    pub i: usize,
    pub ghost inside: { i < length problem.now.u_free.now },
}

impl<'p, 'a> ProblemRow<'p, 'a> {
    // Its entries in W.
    pub fn entries(&self) -> &'a [f64]
        ensures row { result.now
            ≡ box.row self.now.problem.now.w.now (length self.now.problem.now.u_free.now) self.now.i }
        ensures long { length result.now ≡ length self.now.problem.now.u_free.now }
    {
        let p = self.problem;
        let n = p.n();
        &p.w[self.i * n..(self.i + 1) * n]
    }
}

// Row i of a problem, at the multipliers nu.
#[derive(Clone, Copy)]
pub struct RowAt<'p, 'a, 'n> {
    pub problem: &'p BoxProblem<'a>,
    pub nu: &'n [f64],
    pub i: usize,
    pub ghost inside: { i < length problem.now.u_free.now },
    pub ghost multipliers: { length nu.now ≡ length problem.now.u_free.now },
}

impl<'p, 'a, 'n> RowAt<'p, 'a, 'n> {
    ghost use Rattle.box_rows.specs.Lent as lent;

    // The row by its numbers.
    pub fn numbers(&self) -> Row
        ensures { result ≡ box.row_at (lent.of self.now.problem.now) self.now.nu.now self.now.i }
    {
        let p = self.problem;
        let i = self.i;
        let row = ProblemRow { problem: p, i }.entries();
        Row {
            nu: self.nu[i],
            // as many multipliers as entries, so that the sum's loop has one end
            u: row_sum(row, p.u_free[i], &self.nu[..row.len()]),
            diagonal: row[i],
            lo: p.lo[i],
            hi: p.hi[i],
        }
    }

    // How far its update would move its multiplier, over its scale.
    pub fn residual(&self) -> f64
        ensures { result ≡ box.residual_at (lent.of self.now.problem.now) self.now.nu.now self.now.i }
    {
        natural_residual(self.numbers(), self.problem.scale[self.i])
    }
}

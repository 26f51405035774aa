// A list of tallied solves, each with the tally by value and with the tally lent, from what the one before left.
use crate::{lend, same};
use boxed::BoxOutcome;
use report::SolveReport;
use std::{fmt, io};
use tallied::{Sent, Tallied};

// What a solve leaves of its buffers.
#[derive(Clone, Copy)]
struct Left {
    tallied: Tallied,
    nu: [f64; 2],
    states: [u8; 2],
    rows: [usize; 2],
}

impl Left {
    // Of a solve of two rows, made with the buffers that it is lent: nu 0, and 9s.
    fn by<F: FnOnce(&mut [f64], &mut [u8], &mut [usize]) -> Tallied>(solve: F) -> Left
        requires { F.IsAlwaysCallable solve }
    {
        let mut nu = [0.0f64; 2];
        let mut states = [9u8; 2];
        let mut rows = [9usize; 2];
        let tallied = solve(&mut nu, &mut states, &mut rows);
        Left {
            tallied,
            nu,
            states,
            rows,
        }
    }

    fn same(self, other: Left) -> bool {
        same::report(self.tallied.tally, other.tallied.tally)
            && same::answer(self.tallied.answer, other.tallied.answer)
            && same::two_floats(self.nu, other.nu)
            && self.states == other.states
            && self.rows == other.rows
    }
}

// The answer; of the tally increments, sweeps, passes, and whether it is converged and exact.
impl fmt::Display for Left {
    fn fmt<W: fmt::Write>(&self, f: &mut fmt::Formatter<W>) -> fmt::Result {
        match self.tallied.answer {
            Ok(BoxOutcome::Solved(_)) => write!(f, "solved")?,
            Ok(BoxOutcome::Infeasible(_, _, _)) => write!(f, "infeasible")?,
            Err(refusal) => write!(f, "refused {}", u32::from(refusal))?,
        }
        let tally = self.tallied.tally;
        let converged = u32::from(tally.converged);
        let exact = u32::from(tally.exact);
        write!(
            f,
            ", tally {} {} {} {converged} {exact}",
            tally.increments, tally.sweeps, tally.exact_passes
        )
    }
}

// Both forms of a solve, lo 0, hi infinite, no motion; the tally that the lent form leaves.
// The two closures stay beside each other: a form given by its name needs a bound of twelve types, one a line, and that
// is longer than the second closure.
fn solve(
    rt: &impl Print,
    tally: SolveReport,
    w: &[f64],
    u_free: &[f64],
    scale: &[f64],
    work: &mut [f64],
) -> io::Result<SolveReport> {
    let lo = [0.0f64; 2];
    let hi = [f64::INFINITY; 2];
    let sent = Sent::Whole(w);
    let one = Left::by(|nu, states, rows| {
        tallied::tallied_solve(
            tally,
            sent,
            u_free,
            &lo,
            &hi,
            scale,
            &[],
            0.0,
            nu,
            states,
            rows,
            work,
        )
    });
    let other = Left::by(|nu, states, rows| {
        lend::lend_tally(
            tally,
            sent,
            u_free,
            &lo,
            &hi,
            scale,
            &[],
            0.0,
            nu,
            states,
            rows,
            work,
        )
    });
    print!(rt; "{other}")?;
    same::print(rt, one.same(other))?;
    Ok(other.tallied.tally)
}

// A tally that holds no solve more.
fn full(tally: SolveReport) -> SolveReport {
    SolveReport {
        increments: u32::MAX,
        ..tally
    }
}

// Fixed memory: nothing here allocates.
pub fn replay(rt: &impl Print) -> io::Result<()> {
    let mut workspace = [7.0f64; 2304];
    let mut short = [7.0f64; 2303];
    let unit = [1.0f64; 2];
    let none = [0.0f64; 2];
    let down = [-1.0f64; 2];
    let nan = [f64::NAN; 2];
    let apart = [2.0f64, 0.0, 0.0, 2.0];
    let against = [1.0f64, -1.0, -1.0, 1.0];
    let alike = [1.0f64; 4];
    let soft = [0.000000059604644775390625f64, 0.0, 0.0, 1.0];
    let mut t = solve(
        rt,
        SolveReport::NOTHING,
        &apart,
        &down,
        &unit,
        &mut workspace,
    )?;
    t = solve(rt, t, &apart, &down, &none, &mut workspace)?;
    t = solve(rt, t, &apart, &nan, &unit, &mut workspace)?;
    t = solve(rt, t, &against, &down, &unit, &mut workspace)?;
    t = solve(rt, t, &unit, &down, &unit, &mut workspace)?;
    t = solve(rt, t, &alike, &down, &unit, &mut workspace)?;
    t = solve(rt, t, &alike, &down, &unit, &mut short)?;
    t = solve(rt, t, &soft, &down, &unit, &mut workspace)?;
    t = solve(rt, full(t), &apart, &down, &unit, &mut workspace)?;
    solve(rt, t, &apart, &down, &none, &mut workspace)?;
    Ok(())
}

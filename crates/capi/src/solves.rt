// A solve's answer by plain numbers.
ghost use Rattle.std.specs.Prelude.{◌≡◌, ◌∷◌, []};
ghost use Rattle.capi.specs.Solves as plain;

use boxed::{BoxOutcome, BoxReport, Cause};
use refusals::Refusal;

// A cause's number. C alone numbers the causes, so that the solver has no conversion for it.
fn cause_number(c: Cause) -> usize
    ensures { result ≡ plain.cause_number c }
{
    match c {
        Cause::Growth => 1,
        Cause::Pass => 2,
        Cause::Sweep => 3,
    }
}

// A function, and not From: a report and an array are both of other crates, and the outcome and the rows listed lie
// apart.
fn write(outcome: usize, r: BoxReport, listed: usize, counts: &mut [usize; 8])
    ensures { counts.new ≡ plain.written outcome r listed counts.old }
{
    *counts = [
        outcome,
        r.sweeps as usize,
        r.exact_passes as usize,
        usize::from(r.converged),
        usize::from(r.exact),
        r.idle as usize,
        listed,
        r.stopped as usize,
    ];
}

// An answer left where C lends room for it: 0, or the number of a refusal and nothing written.
// C is answered a number: here a refusal becomes one.
pub fn leave(
    answer: Result<BoxOutcome, Refusal>,
    counts: &mut [usize; 8],
    residual: &mut f64,
) -> u32
    ensures { (result ≡ plain.number answer) × (counts.new ≡ plain.counts_left answer counts.old)
        × (residual.new ∷ [] ≡ plain.residual_left answer (residual.old ∷ [])) }
{
    match answer {
        Ok(BoxOutcome::Solved(r)) => {
            write(0, r, 0, counts);
            *residual = r.residual;
            0
        }
        Ok(BoxOutcome::Infeasible(cause, count, r)) => {
            write(cause_number(cause), r, count, counts);
            *residual = r.residual;
            0
        }
        Err(refusal) => refusal.into(),
    }
}

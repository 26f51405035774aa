// Cycles of steps: a step depends on multipliers and states alone, so a pass that comes back to those of an earlier
// step goes round for ever, and whole cycles of the steps that remain are left out. Multipliers are marked in the
// workspace, past least norm's part.
ghost use Rattle.std.specs.Prelude.{◌≡◌, ◌*◌, ◌+◌, ◌<◌, ◌≤◌, Decides, true, length, take};
ghost use Rattle.exact_pass.specs.Pass as pass;
ghost use Rattle.exact_pass.specs.Private as private;

use crate::{Cycle, MARKED};
use std::num::f64_to_bits_with_nan;

// Whether two multipliers are one value, every NaN as one.
#[tactic(auto, using(floats::proofs::OneValue::same_bits))]
fn same(x: f64, y: f64) -> bool
    ensures { Decides result (x ≡ y) }
{
    f64_to_bits_with_nan(x) == f64_to_bits_with_nan(y)
}

// The same of as many multipliers each.
fn same_values(a: &[f64], b: &[f64]) -> bool
    requires { length a.now ≡ length b.now }
    ensures { Decides result (a.now ≡ b.now) }
{
    a.iter().zip(b).all(|(x, y)| same(*x, *y))
}

// Multipliers and states beside the workspace and the list in which earlier ones are marked.
#[derive(Clone, Copy)]
struct Marked<'a> {
    nu: &'a [f64],
    states: &'a [u8],
    work: &'a [f64],
    marks: &'a [u8],
    ghost lent: { private.MarksLent (length nu.now) states.now work.now marks.now },
}

impl<'a> Marked<'a> {
    // Whether they are those marked.
    fn same_trial(&self) -> bool
        ensures { result ≡ true → pass.trial self.now.nu.now self.now.states.now
            ≡ private.marked (length self.now.nu.now) self.now.work.now self.now.marks.now }
    {
        let n = self.nu.len();
        &self.marks[..n] == self.states && same_values(&self.work[MARKED..MARKED + n], self.nu)
    }

    // How many of the steps that remain are still to be made, `since` steps after the mark.
    fn remaining_after(&self, since: usize, remaining: usize) -> usize
        requires some { 0 < since }
        ensures { private.Shortened
            (private.marked (length self.now.nu.now) self.now.work.now self.now.marks.now)
            (pass.trial self.now.nu.now self.now.states.now) since remaining result }
    {
        if self.same_trial() {
            return remaining % since;
        }
        remaining
    }
}

// After a step: a cycle cuts the steps that remain, and the mark is set anew after 2, 4, 8 .. steps (Brent).
pub fn after_step(nu: &[f64], states: &[u8], work: &mut [f64], marks: &mut [u8], m: Cycle) -> Cycle
    requires { private.AfterLent (length nu.now) states.now work.old marks.old m }
    ensures { private.MarkedOn (pass.trial nu.now states.now) m
        work.old marks.old result work.new marks.new }
{
    let since = m.since + 1;
    let marked = Marked {
        nu,
        states,
        work,
        marks,
    };
    let remaining = marked.remaining_after(since, m.remaining - 1);
    if since < m.span {
        return Cycle {
            since,
            span: m.span,
            remaining,
        };
    }
    crate::store(nu, work, MARKED);
    crate::store(states, marks, 0);
    Cycle {
        since: 0,
        span: 2 * m.span,
        remaining,
    }
}

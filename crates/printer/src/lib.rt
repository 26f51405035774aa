// bendsolve's output as text in a lent buffer: as much of it as the buffer holds, and how much that is. Each public
// call is total, and its contract is an equation with a definition of specs/.
// The calls answer a length, and no slice of the buffer: `answer` and C hand on a length.
#![tactic(auto)]

ghost use Rattle.printer.specs.Output as print;
ghost use Rattle.printer.specs.Writing.{Wrote};

use crate::page::Page;
use boxed::{BoxReport, Cause};

mod digit;
mod lines;
mod page;

// The output for document 01's number.
// A number, since a `Refusal` in its place would ask more of callers.
pub fn refused(number: u32, out: &mut [u8]) -> usize
    ensures { Wrote out.old 0 out.new result (print.refused number) }
{
    let mut page = Page { out, at: 0 };
    page.text(b"refused ");
    page.decimal(u64::from(number));
    page.put(b'\n');
    page.at
}

// The output for a solved problem: a line for each multiplier in `nu`, with its row's state.
pub fn solved(report: BoxReport, states: &[u8], nu: &[f64], out: &mut [u8]) -> usize
    ensures { Wrote out.old 0 out.new result
        (print.solved report states.now nu.now) }
{
    let mut page = Page { out, at: 0 };
    page.text(b"solved\n");
    page.body(report, states, nu);
    page.at
}

// The output for an infeasible problem: as for a solved one, with the cause, and with the listed rows in a line at the
// end.
pub fn infeasible(
    cause: Cause,
    report: BoxReport,
    states: &[u8],
    nu: &[f64],
    rows: &[usize],
    out: &mut [u8],
) -> usize
    ensures { Wrote out.old 0 out.new result
        (print.infeasible cause report states.now nu.now rows.now) }
{
    let mut page = Page { out, at: 0 };
    page.opening(cause);
    page.body(report, states, nu);
    page.closing(rows);
    page.at
}

// The lines of an answer.
ghost use Rattle.std.specs.Prelude.{◌++◌, length};
ghost use Rattle.printer.specs.Output as print;
ghost use Rattle.printer.specs.Pages.{Printed};

use crate::page::Page;
use boxed::{BoxReport, Cause};

impl<'a> Page<'a> {
    // Line 1 of an infeasible answer.
    pub fn opening(&mut self, cause: Cause)
        ensures { Printed self.old self.new (print.bytes "infeasible " ++ print.cause cause ++ print.newline) }
    {
        self.text(b"infeasible ");
        self.cause(cause);
        self.put(b'\n');
    }

    // Line 2.
    fn report(&mut self, r: BoxReport)
        ensures { Printed self.old self.new (print.report_line r) }
    {
        self.text(b"sweeps ");
        self.decimal(u64::from(r.sweeps));
        self.text(b" passes ");
        self.decimal(u64::from(r.exact_passes));
        self.text(b" converged ");
        self.flag(r.converged);
        self.text(b" exact ");
        self.flag(r.exact);
        self.text(b" idle ");
        self.decimal(u64::from(r.idle));
        self.text(b" residual ");
        self.pattern(r.residual);
        self.put(b'\n');
    }

    fn row(&mut self, i: usize, state: u8, nu: f64)
        ensures { Printed self.old self.new (print.row_line i state nu) }
    {
        self.text(b"row ");
        self.decimal(i as u64);
        self.put(b' ');
        self.state(state);
        self.put(b' ');
        self.pattern(nu);
        self.put(b'\n');
    }

    // A line for each multiplier, with its row's state, which is 0 past the end of the states.
    fn rows(&mut self, states: &[u8], nu: &[f64])
        ensures { Printed self.old self.new (print.row_lines states.now nu.now (length nu.now)) }
    {
        for (i, v) in nu.iter().enumerate() {
            self.row(i, states.get(i).copied().unwrap_or(0), *v);
        }
    }

    // Line 2 and the rows.
    pub fn body(&mut self, r: BoxReport, states: &[u8], nu: &[f64])
        ensures { Printed self.old self.new (print.body r states.now nu.now) }
    {
        self.report(r);
        self.rows(states, nu);
    }

    fn listed(&mut self, rows: &[usize])
        ensures { Printed self.old self.new (print.listed rows.now (length rows.now)) }
    {
        for row in rows {
            self.put(b' ');
            self.decimal(*row as u64);
        }
    }

    // The last line of an infeasible answer.
    pub fn closing(&mut self, rows: &[usize])
        ensures { Printed self.old self.new
            (print.bytes "fights" ++ print.listed rows.now (length rows.now) ++ print.newline) }
    {
        self.text(b"fights");
        self.listed(rows);
        self.put(b'\n');
    }
}

// Lists of three reports, joined one by one by value and as a list that is lent.
use crate::{lend, same};
use refusals::Refusal;
use report::SolveReport;
use std::io;

fn by_value(
    first: SolveReport,
    second: SolveReport,
    third: SolveReport,
) -> Result<SolveReport, Refusal> {
    SolveReport::NOTHING.and(first)?.and(second)?.and(third)
}

// A report of so many increments, sweeps and passes.
fn report(increments: u32, sweeps: u32, passes: u32, residual: f64) -> SolveReport {
    SolveReport {
        increments,
        sweeps,
        exact_passes: passes,
        exact: false,
        residual,
        ..SolveReport::NOTHING
    }
}

fn print(rt: &impl Print, joined: Result<SolveReport, Refusal>) -> io::Result<()> {
    match joined {
        Err(refusal) => print!(rt; "joined: refused {}", u32::from(refusal)),
        Ok(both) => print!(rt; "joined: sweeps {}", both.sweeps),
    }
}

fn join(
    rt: &impl Print,
    first: SolveReport,
    second: SolveReport,
    third: SolveReport,
) -> io::Result<()> {
    let lent = lend::lend_list(first, second, third);
    print(rt, lent)?;
    same::print(rt, same::joined(by_value(first, second, third), lent))
}

pub fn replay(rt: &impl Print) -> io::Result<()> {
    let one = report(1, 3, 2, 0.5);
    let nan = report(2, 200, 9, f64::NAN);
    let most = report(u32::MAX, 7, 7, -1.0);
    join(
        rt,
        SolveReport::NOTHING,
        SolveReport::NOTHING,
        SolveReport::NOTHING,
    )?;
    join(rt, one, nan, one)?;
    join(rt, nan, one, most)?;
    join(
        rt,
        most,
        SolveReport::NOTHING,
        report(0, 4294967288, 0, 0.0),
    )?;
    join(
        rt,
        most,
        SolveReport::NOTHING,
        report(0, 4294967289, 0, 0.0),
    )
}

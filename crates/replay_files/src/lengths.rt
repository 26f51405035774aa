// Calls of the solver that no bend file leads to, for the numbers of lengths: 5, 6, 7, 9 and 10, and one whose lengths
// are right.
ghost use Rattle.std.specs.Prelude.{◌≤◌};

use boxed::{BoxOutcome, BoxSolver};
use refusals::Refusal;
use std::io;

// What a call with so many values of W, rows, bounds, motion and workspace answers.
// Fixed memory: nothing here allocates, and a call is lent the front of each array.
fn call(w: usize, n: usize, lo: usize, motion: usize, room: usize) -> Result<BoxOutcome, Refusal>
    requires { (w ≤ 1024) × (n ≤ 33) × (lo ≤ 33) × (motion ≤ 2049) × (room ≤ 2304) }
{
    let cells = [0.0f64; 1024];
    let u_free = [0.0f64; 33];
    let low = [0.0f64; 33];
    let hi = [1.0f64; 33];
    let scale = [1.0f64; 33];
    let moving = [0.0f64; 2049];
    let mut nu = [0.0f64; 33];
    let mut states = [0u8; 33];
    let mut rows = [0usize; 33];
    let mut workspace = [0.0f64; 2304];
    BoxSolver::solve(
        &cells[..w],
        &u_free[..n],
        &low[..lo],
        &hi[..n],
        &scale[..n],
        &moving[..motion],
        0.0,
        &mut nu[..n],
        &mut states,
        &mut rows,
        &mut workspace[..room],
    )
}

// Its number, 0 where the solve was taken.
fn print(rt: &impl Print, answer: Result<BoxOutcome, Refusal>) -> io::Result<()> {
    match answer {
        Err(refusal) => print!(rt; " {}", u32::from(refusal)),
        Ok(_) => print!(rt; " 0"),
    }
}

pub fn replay(rt: &impl Print) -> io::Result<()> {
    print!(rt; "numbers of lengths:")?;
    print(rt, call(1024, 33, 33, 0, 2304))?;
    print(rt, call(4, 2, 2, 2049, 2304))?;
    print(rt, call(3, 2, 2, 2, 2304))?;
    print(rt, call(4, 2, 1, 2, 2304))?;
    print(rt, call(4, 2, 2, 3, 2304))?;
    print(rt, call(4, 2, 2, 2, 2303))?;
    print(rt, call(4, 2, 2, 2, 2304))?;
    println!(rt)
}

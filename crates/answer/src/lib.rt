// From a bend file's bytes to the bytes that bendsolve writes: read, solve, print. The call is total, and its contract is
// an equation with the definition in specs/, which is the reader's, the solver's and the printer's one after another.
#![tactic(auto)]

ghost use Rattle.std.specs.Prelude.{◌≤◌, length};
ghost use Rattle.bend_file.specs.Trailer.{Small};
ghost use Rattle.answer.specs.Output as def;
ghost use Rattle.answer.specs.Private as private;

use bend_file::Shape;
use boxed::{BoxOutcome, BoxSolver};
use refusals::Refusal;

// Every output fits in a buffer of so many bytes.
pub const ROOM: usize = 2048;

// The lines of a solve's answer.
fn print(
    answer: Result<BoxOutcome, Refusal>,
    states: &[u8],
    nu: &[f64],
    rows: &[usize],
    out: &mut [u8],
) -> usize
    requires { (length nu.now ≤ 32) × (length rows.now ≤ 32) }
    ensures { def.Laid out.old out.new result
        (def.lines answer states.now nu.now rows.now) }
{
    match answer {
        Err(refusal) => printer::refused(u32::from(refusal), out),
        Ok(outcome) => match outcome {
            BoxOutcome::Solved(report) => printer::solved(report, states, nu, out),
            BoxOutcome::Infeasible(cause, count, report) => {
                let fighting = boxed::listed(rows, count);
                printer::infeasible(cause, report, states, nu, fighting, out)
            }
        },
    }
}

// What a file's problem is read into: its values are at the fronts.
#[derive(Clone, Copy)]
struct Values {
    w: [f64; 1024],
    u_free: [f64; 32],
    lo: [f64; 32],
    hi: [f64; 32],
    scale: [f64; 32],
    nu: [f64; 32],
    motion: [f64; 2048],
}

impl Values {
    // The problem of this shape solved, and its answer printed. The states, the row list and the workspace are the
    // solve's own.
    fn solve(&self, shape: Shape, out: &mut [u8]) -> usize
        requires { Small shape.rows shape.coords }
        ensures { def.Laid out.old out.new result (def.printed (private.fronts shape self.now)) }
    {
        let n = shape.rows;
        let mut start = self.nu;
        let nu = &mut start[..n];
        // Fixed memory: the scratch is as long as the largest problem needs.
        let mut states = [0u8; 32];
        let mut rows = [0usize; 32];
        let mut workspace = [0.0f64; 2304];
        let answer = BoxSolver::solve(
            &self.w[..n * n],
            &self.u_free[..n],
            &self.lo[..n],
            &self.hi[..n],
            &self.scale[..n],
            &self.motion[..shape.coords * n],
            shape.tolerance,
            nu,
            &mut states,
            &mut rows,
            &mut workspace,
        );
        print(answer, &states, nu, &rows, out)
    }
}

// What bendsolve writes for a file, at the front of a lent buffer; how long it is. A buffer of less than 2,048 bytes
// gets nothing, and 0 is returned: it is never given a part of an answer.
// The length beside the buffer is what `piskorlu_bend` gives C.
pub fn of_file(file: &[u8], out: &mut [u8]) -> usize
    ensures { def.Answered file.now result out.old out.new }
{
    if out.len() < ROOM {
        return 0;
    }
    let mut values = Values {
        w: [0.0; 1024],
        u_free: [0.0; 32],
        lo: [0.0; 32],
        hi: [0.0; 32],
        scale: [0.0; 32],
        nu: [0.0; 32],
        motion: [0.0; 2048],
    };
    let shape = bend_file::read(
        file,
        &mut values.w,
        &mut values.u_free,
        &mut values.lo,
        &mut values.hi,
        &mut values.scale,
        &mut values.nu,
        &mut values.motion,
    );
    match shape {
        Err(refusal) => printer::refused(u32::from(refusal), out),
        Ok(shape) => values.solve(shape, out),
    }
}

// The solve of a triangle by plain numbers, and the tallied one. C names these and those of a whole matrix; one function
// for both, lent the form, would be no plainer: it would have the parameters and the contract of either once more.
// The lists of a call stay apart: C lends each by itself.
ghost use Rattle.std.specs.Prelude.{◌≡◌, length};
ghost use Rattle.floats.specs.Ops as ops;
ghost use Rattle.boxed.specs.Solve as solve;
ghost use Rattle.triangle.specs.Triangle as triangle;
ghost use Rattle.tallied.specs.Joining as joining;
ghost use Rattle.capi.specs.Reports as report;
ghost use Rattle.capi.specs.Solves as plain;
ghost use Rattle.capi.specs.Tallies as tallies;

use crate::{reports, solves, tallying};
use refusals::Refusal;
use tallied::Sent;

// triangle::solve: what piskorlu_solve answers and leaves of the mirrored matrix; or 5, 16 in the place of 6, or 7 to
// 10, and nothing is written.
#[tactic(auto, unfolding(crate::specs::Solves::taken, crate::specs::Solves::reply))]
#[unsafe(no_mangle)]
pub extern "C" fn piskorlu_solve_triangle(
    t: &[f64],
    u_free: &[f64],
    lo: &[f64],
    hi: &[f64],
    scale: &[f64],
    motion: &[f64],
    tolerance: f64,
    nu: &mut [f64],
    states: &mut [u8],
    rows: &mut [usize],
    workspace: &mut [f64],
    counts: &mut [usize],
    residual: &mut [f64],
) -> u32
    ensures { plain.Answered
        (plain.reply (plain.taken counts.old residual.old)
        (triangle.triangle_reply (length t.now)
        (triangle.problem t.now u_free.now lo.now hi.now
        scale.now)
        (solve.watch motion.now tolerance)
        nu.old states.old rows.old (length workspace.old))
        nu.old states.old rows.old)
        result nu.new states.new rows.new
        counts.old counts.new residual.old residual.new
        workspace.old workspace.new }
{
    let Some(counts) = counts.first_chunk_mut::<8>() else {
        return Refusal::Short.into();
    };
    let Some(residual) = residual.first_mut() else {
        return Refusal::Short.into();
    };
    let answer = triangle::solve(
        t, u_free, lo, hi, scale, motion, tolerance, nu, states, rows, workspace,
    );
    solves::leave(answer, counts, residual)
}

// A tallied solve of a triangle: as piskorlu_tallied of the mirrored matrix, with 16 in the place of 6.
#[tactic(auto, unfolding(crate::specs::Solves::taken, crate::specs::Tallies::taken, crate::specs::Tallies::reply))]
#[unsafe(no_mangle)]
pub extern "C" fn piskorlu_tallied_triangle(
    tally: &mut [u32],
    tally_residual: &mut [f64],
    t: &[f64],
    u_free: &[f64],
    lo: &[f64],
    hi: &[f64],
    scale: &[f64],
    motion: &[f64],
    tolerance: f64,
    nu: &mut [f64],
    states: &mut [u8],
    rows: &mut [usize],
    workspace: &mut [f64],
    counts: &mut [usize],
    residual: &mut [f64],
) -> u32
    ensures { tallies.Answered
        (tallies.reply
        (tallies.taken tally.old tally_residual.old counts.old
        residual.old)
        (report.read tally.old (ops.at tally_residual.old 0))
        (joining.call (triangle.triangle (length t.now))
        (triangle.problem t.now u_free.now lo.now hi.now
        scale.now)
        (solve.watch motion.now tolerance)
        nu.old states.old rows.old (length workspace.old)))
        result tally.old tally.new tally_residual.old tally_residual.new
        nu.new states.new rows.new
        counts.old counts.new residual.old residual.new
        workspace.old workspace.new }
{
    let Some(tally) = tally.first_chunk_mut::<10>() else {
        return Refusal::Short.into();
    };
    let Some(tally_residual) = tally_residual.first_mut() else {
        return Refusal::Short.into();
    };
    let Some(counts) = counts.first_chunk_mut::<8>() else {
        return Refusal::Short.into();
    };
    let Some(residual) = residual.first_mut() else {
        return Refusal::Short.into();
    };
    let held = reports::read(tally, *tally_residual);
    let sent = Sent::Triangle(t);
    let s = tallied::tallied_solve(
        held, sent, u_free, lo, hi, scale, motion, tolerance, nu, states, rows, workspace,
    );
    tallying::keep(s, tally, tally_residual);
    solves::leave(s.answer, counts, residual)
}

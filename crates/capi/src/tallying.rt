// A tallied solve by plain numbers.
ghost use Rattle.std.specs.Prelude.{◌≡◌, ◌∷◌, [], length};
ghost use Rattle.floats.specs.Ops as ops;
ghost use Rattle.box_rows.specs.Rows as box;
ghost use Rattle.boxed.specs.Solve as solve;
ghost use Rattle.triangle.specs.Triangle as triangle;
ghost use Rattle.tallied.specs.Joining as joining;
ghost use Rattle.capi.specs.Reports as report;
ghost use Rattle.capi.specs.Tallies as tallies;

use crate::{reports, solves};
use refusals::Refusal;
use tallied::{Sent, Tallied};

// The tally that a solve left, where C lends it, unless the solve is refused.
pub fn keep(s: Tallied, tally: &mut [u32; 10], tally_residual: &mut f64)
    ensures { (tally.new ≡ tallies.counts_kept s.answer s.tally tally.old)
        × (tally_residual.new ∷ [] ≡ tallies.residual_kept s.answer s.tally (tally_residual.old ∷ [])) }
{
    if s.answer.is_ok() {
        reports::write(s.tally, tally);
        *tally_residual = s.tally.residual;
    }
}

// A tallied solve: 0, the answer in eight counts and a residual, and the tally, ten counts and a residual, joined
// with it; or 5 to 11 and nothing written, 10 also where a slice of these has no room.
#[tactic(auto, unfolding(crate::specs::Solves::taken, crate::specs::Tallies::taken, crate::specs::Tallies::reply))]
#[unsafe(no_mangle)]
pub extern "C" fn piskorlu_tallied(
    tally: &mut [u32],
    tally_residual: &mut [f64],
    w: &[f64],
    u_free: &[f64],
    lo: &[f64],
    hi: &[f64],
    scale: &[f64],
    motion: &[f64],
    tolerance: f64,
    nu: &mut [f64],
    states: &mut [u8],
    rows: &mut [usize],
    workspace: &mut [f64],
    counts: &mut [usize],
    residual: &mut [f64],
) -> u32
    ensures { tallies.Answered
        (tallies.reply
        (tallies.taken tally.old tally_residual.old counts.old residual.old)
        (report.read tally.old (ops.at tally_residual.old 0))
        (joining.call triangle.whole
        (box.problem w.now u_free.now lo.now hi.now scale.now)
        (solve.watch motion.now tolerance)
        nu.old states.old rows.old (length workspace.old)))
        result tally.old tally.new tally_residual.old tally_residual.new
        nu.new states.new rows.new
        counts.old counts.new residual.old residual.new
        workspace.old workspace.new }
{
    let Some(tally) = tally.first_chunk_mut::<10>() else {
        return Refusal::Short.into();
    };
    let Some(tally_residual) = tally_residual.first_mut() else {
        return Refusal::Short.into();
    };
    let Some(counts) = counts.first_chunk_mut::<8>() else {
        return Refusal::Short.into();
    };
    let Some(residual) = residual.first_mut() else {
        return Refusal::Short.into();
    };
    let held = reports::read(tally, *tally_residual);
    let sent = Sent::Whole(w);
    let s = tallied::tallied_solve(
        held, sent, u_free, lo, hi, scale, motion, tolerance, nu, states, rows, workspace,
    );
    keep(s, tally, tally_residual);
    solves::leave(s.answer, counts, residual)
}

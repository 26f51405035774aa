// A tallied solve by plain numbers.
// The lists of a call stay apart: C lends each by itself.
ghost use Rattle.std.specs.Prelude.{length};
ghost use Rattle.floats.specs.Ops as ops;
ghost use Rattle.box_rows.specs.Rows as box;
ghost use Rattle.boxed.specs.Solve as solve;
ghost use Rattle.triangle.specs.Triangle as triangle;
ghost use Rattle.tallied.specs.Joining as joining;
ghost use Rattle.capi.specs.Reports as report;
ghost use Rattle.capi.specs.Tallies as tallies;

// A tallied solve: 0, the answer in eight counts and a residual, and the tally, ten counts and a residual, joined
// with it; or 5 to 11 and nothing written, 10 also where a slice of these has no room.
#[unsafe(no_mangle)]
pub extern "C" fn piskorlu_tallied(
    tally: &mut [u32],
    tally_residual: &mut [f64],
    w: &[f64],
    u_free: &[f64],
    lo: &[f64],
    hi: &[f64],
    scale: &[f64],
    motion: &[f64],
    tolerance: f64,
    nu: &mut [f64],
    states: &mut [u8],
    rows: &mut [usize],
    workspace: &mut [f64],
    counts: &mut [usize],
    residual: &mut [f64],
) -> u32
    ensures { tallies.Answered
        (tallies.reply
        (tallies.taken tally.old tally_residual.old counts.old residual.old)
        (report.read tally.old (ops.at tally_residual.old 0))
        (joining.call triangle.whole
        (box.problem w.now u_free.now lo.now hi.now scale.now)
        (solve.watch motion.now tolerance)
        nu.old states.old rows.old (length workspace.old)))
        result tally.old tally.new tally_residual.old tally_residual.new
        nu.new states.new rows.new
        counts.old counts.new residual.old residual.new
        workspace.old workspace.new }
{
    capi::piskorlu_tallied(
        tally,
        tally_residual,
        w,
        u_free,
        lo,
        hi,
        scale,
        motion,
        tolerance,
        nu,
        states,
        rows,
        workspace,
        counts,
        residual,
    )
}

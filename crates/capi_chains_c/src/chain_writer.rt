// The writer of chained bend files, for C and Rust.
// The lists of a call stay apart: C lends each by itself.
ghost use Rattle.std.specs.Prelude.{length};
ghost use Rattle.bend_writer.specs.Write as write;
ghost use Rattle.capi_chains.specs.ChainWriter as def;

// The steps of a pull as one file at the front of out: 0, and written[0] is its length; or the number of a refusal, and
// nothing is written.
#[unsafe(no_mangle)]
pub extern "C" fn piskorlu_chain_write(
    rows: &[usize],
    coords: &[usize],
    counts: &[usize],
    values: &[f64],
    out: &mut [u8],
    written: &mut [usize],
) -> u32
    ensures { def.Answered
        (def.reply
        (def.taken rows.now coords.now counts.now written.old)
        (write.lent (length rows.now)
        rows.now coords.now counts.now values.now)
        (length out.old))
        result out.old out.new written.old written.new }
{
    capi_chains::piskorlu_chain_write(rows, coords, counts, values, out, written)
}

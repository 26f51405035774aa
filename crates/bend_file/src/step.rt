// One step of a chained bend file: document 02's rules in their order, and where its values are.
ghost use Rattle.std.specs.Prelude.{◌≡◌, length};
ghost use Rattle.refusals.specs.Calls.{unless};
ghost use Rattle.bend_file.specs.Chain as chain;
ghost use Rattle.bend_file.specs.Private as private;

use crate::little::bytes_at;
use crate::trailer;
use crate::trailer::{TRAILER, Values};
use refusals::Refusal;

// The most bytes of a chained bend file.
const MAX_BYTES: usize = 1048576;

// The bytes of a link.
const LINK: usize = 4;

// A step: where the previous step's trailer ends, and where its values are. In the first step the link is 0, since that
// is what the file has there: its values are counted from the file's front.
#[derive(Clone, Copy)]
pub struct Step {
    pub link: usize,
    pub values: Values,
}

// The step whose trailer the file ends with, or the first rule that it breaks. The length rule needs no guard against a
// start that only wraps: it counts from a link that is before the numbers.
pub fn read(file: &[u8]) -> Result<Step, Refusal>
    ensures { result ≡ unless (chain.step_refusal file.now (length file.now))
        (private.step file.now (length file.now)) }
{
    let end = file.len();
    if !trailer::sized(end, MAX_BYTES) {
        return Err(Refusal::FileSize);
    }
    let trailer = trailer::read(file)?;
    let at = end
        .checked_sub(TRAILER + LINK + 8 * trailer.count)
        .ok_or(Refusal::Link)?;
    let link = u32::from_le_bytes(bytes_at(file, at)) as usize;
    if link > at {
        return Err(Refusal::Link);
    }
    let values = Values {
        start: link + trailer.start,
        ..trailer
    };
    if values.end() != end {
        return Err(Refusal::FileCount);
    }
    Ok(Step { link, values })
}

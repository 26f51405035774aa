// Chained bend files, for C and Rust.
// The lists of a call stay apart: C lends each by itself.
ghost use Rattle.capi_chains.specs.Chains as def;

use bend_file::chain;
use bend_file::chain::MAX_STEPS;
use refusals::Refusal;

// How many steps a chained bend file has, in steps[0], and where the trailer of each ends, newest first, in the first
// 40 places of ends, with 0 past them. 0, or document 02's number, and nothing is written; 10 at once where steps has
// no place or ends less than 40.
#[unsafe(no_mangle)]
pub extern "C" fn piskorlu_chain(file: &[u8], steps: &mut [usize], ends: &mut [usize]) -> u32
    ensures { def.Told (def.told file.now steps.old ends.old)
        result steps.old steps.new ends.old ends.new }
{
    if steps.is_empty() || ends.len() < MAX_STEPS {
        return u32::from(Refusal::Short);
    }
    match chain::steps(file) {
        Err(refusal) => u32::from(refusal),
        Ok(found) => {
            steps[0] = found.count;
            ends[..MAX_STEPS].copy_from_slice(&found.ends);
            0
        }
    }
}

// The answer where the file has no such step: C is answered a number, and this is no refusal's.
const NO_STEP: u32 = u32::MAX;

// A step of a chained bend file, counted from the newest, which is 0: its rows and coordinates in shape, its tolerance
// in tolerance[0], its other values at the front of the buffers. 0, or document 02's number, or NO_STEP, and nothing
// is written; 10 at once where a slice is shorter than the largest step needs.
#[unsafe(no_mangle)]
pub extern "C" fn piskorlu_chain_step(
    file: &[u8],
    step: usize,
    w: &mut [f64],
    u_free: &mut [f64],
    lo: &mut [f64],
    hi: &mut [f64],
    scale: &mut [f64],
    nu: &mut [f64],
    motion: &mut [f64],
    shape: &mut [usize],
    tolerance: &mut [f64],
) -> u32
    ensures { def.Given
        (def.given file.now step
        (record {
          w = w.old;
          u_free = u_free.old;
          lo = lo.old;
          hi = hi.old;
          scale = scale.old;
          nu = nu.old;
          motion = motion.old;
        })
        shape.old tolerance.old)
        result
        (record {
          w = w.old;
          u_free = u_free.old;
          lo = lo.old;
          hi = hi.old;
          scale = scale.old;
          nu = nu.old;
          motion = motion.old;
        })
        (record {
          w = w.new;
          u_free = u_free.new;
          lo = lo.new;
          hi = hi.new;
          scale = scale.new;
          nu = nu.new;
          motion = motion.new;
        })
        shape.old shape.new tolerance.old tolerance.new }
{
    if shape.len() < 2 || tolerance.is_empty() {
        return u32::from(Refusal::Short);
    }
    match chain::read_step(file, step, w, u_free, lo, hi, scale, nu, motion) {
        Err(refusal) => u32::from(refusal),
        Ok(None) => NO_STEP,
        Ok(Some(found)) => {
            shape[0] = found.rows;
            shape[1] = found.coords;
            tolerance[0] = found.tolerance;
            0
        }
    }
}

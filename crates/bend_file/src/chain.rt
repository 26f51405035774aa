// The reader of chained bend files: where the steps of a pull are, and the problem of one of them. Each call walks the
// whole chain, newest step first, so that a refusal at any step is the whole file's. The calls are total, and their
// contracts are equations with the definitions in specs/Chain.antt.
ghost use Rattle.std.specs.Prelude.{◌≡◌};
ghost use Rattle.bend_file.specs.Chain as chain;
ghost use Rattle.bend_file.specs.Private as private;

use crate::lent::Lent;
use crate::trailer::Values;
use crate::{Shape, step};
use refusals::Refusal;

// The most steps of a pull.
pub const MAX_STEPS: usize = 40;

// The steps of a chained bend file, newest first: how many, and where the trailer of each ends, with 0 past them. The
// array and its count stand side by side since C is given the whole array, and memory is fixed.
#[derive(Clone, Copy)]
pub struct Chain {
    pub count: usize,
    pub ends: [usize; MAX_STEPS],
}

// Where the steps are.
pub fn steps(file: &[u8]) -> Result<Chain, Refusal>
    ensures { result ≡ chain.told (chain.ends file.now) }
{
    let mut ends = [0; MAX_STEPS];
    let mut end = file.len();
    for passed in 0..MAX_STEPS {
        let step = step::read(&file[..end])?;
        ends[passed] = end;
        if step.link == 0 {
            return Ok(Chain {
                count: passed + 1,
                ends,
            });
        }
        end = step.link;
    }
    Err(Refusal::Steps)
}

// Where the values of step number `step` are, counted from the newest, which is 0.
fn find(file: &[u8], step: usize) -> Result<Option<Values>, Refusal>
    ensures { result ≡ private.found file.now step (chain.ends file.now) }
{
    let chain = steps(file)?;
    if step >= chain.count {
        return Ok(None);
    }
    let found = step::read(&file[..chain.ends[step]])?;
    Ok(Some(found.values))
}

// Reads step number `step`, counted from the newest, which is 0. With n rows, W is the first n * n values of `w`, row
// by row; u_free, lo, hi, scale and nu are the first n of theirs; motion is the first coords * n of `motion`. What lies
// past them stays, and so does everything where the file is refused or has no such step. `w` has at least 1,024 values,
// `motion` 2,048 and each other buffer 32; shorter ones get 10 at once. None: the file has no such step, which is no
// refusal.
// The buffers stay apart, as C lends them.
pub fn read_step(
    file: &[u8],
    step: usize,
    w: &mut [f64],
    u_free: &mut [f64],
    lo: &mut [f64],
    hi: &mut [f64],
    scale: &mut [f64],
    nu: &mut [f64],
    motion: &mut [f64],
) -> Result<Option<Shape>, Refusal>
    ensures { chain.ReadsStep file.now step result
        (record {
          w = w.old;
          u_free = u_free.old;
          lo = lo.old;
          hi = hi.old;
          scale = scale.old;
          nu = nu.old;
          motion = motion.old;
        })
        (record {
          w = w.new;
          u_free = u_free.new;
          lo = lo.new;
          hi = hi.new;
          scale = scale.new;
          nu = nu.new;
          motion = motion.new;
        }) }
{
    let mut lent = Lent {
        w,
        u_free,
        lo,
        hi,
        scale,
        nu,
        motion,
    };
    if !lent.is_roomy() {
        return Err(Refusal::Short);
    }
    let Some(values) = find(file, step)? else {
        return Ok(None);
    };
    Ok(Some(lent.fill(file, values)))
}

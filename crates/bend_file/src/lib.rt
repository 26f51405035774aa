// The reader of bend files: document 01's numbers 1 to 4 in their order, and the values of the problem that a file
// holds. The call is total, and its contract is an equation with the definition of the format in specs/.
#![tactic(auto)]

ghost use Rattle.bend_file.specs.Read as read;

pub mod chain;
mod lent;
mod little;
mod step;
mod trailer;

use lent::Lent;
use refusals::Refusal;
pub use trailer::{MAX_MOTION, MAX_ROWS, value_count};

// A problem's rows, coordinates and motion tolerance. Its other values are in the lent buffers.
#[derive(Clone, Copy)]
pub struct Shape {
    pub rows: usize,
    pub coords: usize,
    pub tolerance: f64,
}

// Reads a bend file. With n rows, W is the first n * n values of `w`, row by row; u_free, lo, hi, scale and nu are the
// first n of theirs; motion is the first coords * n of `motion`. What lies past them stays, and so does everything
// where the file is refused.
// The buffers stay apart, as a caller has them: one that had to put them into a struct would be asked for more.
pub fn read(
    file: &[u8],
    w: &mut [f64; 1024],
    u_free: &mut [f64; 32],
    lo: &mut [f64; 32],
    hi: &mut [f64; 32],
    scale: &mut [f64; 32],
    nu: &mut [f64; 32],
    motion: &mut [f64; 2048],
) -> Result<Shape, Refusal>
    ensures { read.Reads file.now result
        (record {
          w = w.old;
          u_free = u_free.old;
          lo = lo.old;
          hi = hi.old;
          scale = scale.old;
          nu = nu.old;
          motion = motion.old;
        })
        (record {
          w = w.new;
          u_free = u_free.new;
          lo = lo.new;
          hi = hi.new;
          scale = scale.new;
          nu = nu.new;
          motion = motion.new;
        }) }
{
    let values = trailer::of_file(file)?;
    let mut lent = Lent {
        w,
        u_free,
        lo,
        hi,
        scale,
        nu,
        motion,
    };
    Ok(lent.fill(file, values))
}

// The sizes of a pull's steps, from separate lists.
ghost use Rattle.std.specs.Prelude.{◌≡◌, get_or};
ghost use Rattle.loops.specs.Loops.{tab};
ghost use Rattle.bend_writer.specs.Private as private;

use crate::StepSize;
use bend_file::chain::MAX_STEPS;
use std::array;

// The number at place i, 0 past the end.
fn number(list: &[usize], i: usize) -> usize
    ensures { result ≡ get_or list.now i 0 }
{
    list.get(i).copied().unwrap_or(0)
}

// The sizes of as many steps as a pull may have. The lists stay apart, as C lends them.
pub fn sizes(rows: &[usize], coords: &[usize], counts: &[usize]) -> [StepSize; MAX_STEPS]
    ensures { result ≡ tab (private.size rows.now coords.now counts.now) 40 }
{
    array::from_fn(|i| StepSize {
        rows: number(rows, i),
        coords: number(coords, i),
        count: number(counts, i),
    })
}

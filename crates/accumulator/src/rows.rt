// A whole row's terms at once.
ghost use Rattle.std.specs.Prelude.{◌≡◌};
ghost use Rattle.accumulator.specs.Accumulators as acc;

use crate::{Accumulator, MOST_PRODUCTS};
use refusals::Refusal;

// A whole row at once, as from EMPTY by add_free of u and add_product of w[j] and nu[j] for j rising, over the shorter
// of the two: refused for more than 32 products, then for a value that is NaN or infinite.
pub fn row(u: f64, w: &[f64], nu: &[f64]) -> Result<Accumulator, Refusal>
    ensures { result ≡ acc.row u w.now nu.now }
{
    if w.len().min(nu.len()) > MOST_PRODUCTS as usize {
        return Err(Refusal::ExactFull);
    }
    let mut sum = Accumulator::EMPTY;
    sum.take_free(u)?;
    for (entry, multiplier) in w.iter().zip(nu) {
        sum.put_product(*entry, *multiplier)?;
    }
    Ok(sum)
}

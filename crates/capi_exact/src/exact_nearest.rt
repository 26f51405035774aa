// The f64 nearest to an exact row sum, by plain numbers.
ghost use Rattle.std.specs.Prelude.{◌≡◌};
ghost use Rattle.capi_exact.specs.ExactNearest as def;

use refusals::Refusal;

// The f64 nearest to what the first 67 words mean: 0, and res[0] is the value; or 10 where a slice is too short,
// and nothing is written.
#[tactic(auto, unfolding(crate::specs::ExactNearest::taken))]
#[unsafe(no_mangle)]
pub extern "C" fn piskorlu_exact_nearest(words: &[u64], res: &mut [f64]) -> u32
    ensures { def.Answered words.now result res.old res.new }
{
    let Some(own) = words.first_chunk() else {
        return Refusal::Short.into();
    };
    if res.is_empty() {
        return Refusal::Short.into();
    }
    res[0] = nearest::nearest(own);
    0
}

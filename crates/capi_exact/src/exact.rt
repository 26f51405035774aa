// Exact row sums by plain numbers: 67 words, and two counts, how many products they hold and whether a free motion. A
// call that is refused writes nothing.
// Words and counts stay two slices, as C lends them: a struct of both would be made and taken apart in each call.
ghost use Rattle.std.specs.Prelude.{◌≡◌, ◌≤◌, length};
ghost use Rattle.accumulator.specs.Accumulators as acc;
ghost use Rattle.accumulator.specs.Joins as joins;
ghost use Rattle.capi_exact.specs.Exact as def;

use accumulator::{Accumulator, WORDS};
use flags::{flag, flagged};
use refusals::Refusal;

// Whether there is room for the words and the counts.
#[tactic(auto, unfolding(crate::specs::Exact::taken))]
fn taken(words: &[u64], counts: &[u32]) -> bool
    ensures { result ≡ def.taken words.now counts.now }
{
    words.len() >= WORDS && counts.len() >= 2
}

// The accumulator that words and counts hold, where there is room for one.
#[tactic(auto, unfolding(crate::specs::Exact::taken, crate::specs::Exact::state))]
fn held(words: &[u64], counts: &[u32]) -> Result<Accumulator, Refusal>
    ensures { result ≡ def.held words.now counts.now }
{
    let own = words.first_chunk().ok_or(Refusal::Short)?;
    let [products, free] = *counts.first_chunk::<2>().ok_or(Refusal::Short)?;
    Ok(Accumulator {
        words: *own,
        products,
        free: flagged(free),
    })
}

// The sum left in words and counts.
fn keep(sum: Accumulator, words: &mut [u64], counts: &mut [u32])
    requires { (67 ≤ length words.old) × (2 ≤ length counts.old) }
    ensures { (words.new ≡ def.words_left (Ok sum) words.old) × (counts.new ≡ def.counts_left (Ok sum) counts.old) }
{
    let own = sum.words;
    words[..WORDS].copy_from_slice(&own);
    counts[0] = sum.products;
    counts[1] = flag(sum.free);
}

// What a call answers: 0, and the sum is left; or the number of its refusal.
// C is answered a number: here a refusal becomes one.
fn leave(answer: Result<Accumulator, Refusal>, words: &mut [u64], counts: &mut [u32]) -> u32
    requires { (67 ≤ length words.old) × (2 ≤ length counts.old) }
    ensures { def.Left answer result words.old words.new counts.old counts.new }
{
    match answer {
        Ok(sum) => {
            keep(sum, words, counts);
            0
        }
        Err(refusal) => refusal.into(),
    }
}

// A free motion is added: 0; or 10, 18 or 17.
#[tactic(auto, using(crate::proofs::Sums::room))]
#[unsafe(no_mangle)]
pub extern "C" fn piskorlu_exact_free(u: f64, words: &mut [u64], counts: &mut [u32]) -> u32
    ensures { def.Left
        (def.reply (def.taken words.old counts.old)
        (acc.add_free (def.state words.old counts.old) u))
        result words.old words.new counts.old counts.new }
{
    let Ok(sum) = held(words, counts) else {
        return Refusal::Short.into();
    };
    leave(sum.add_free(u), words, counts)
}

// A product is added: 0; or 10, 18 or 17.
#[tactic(auto, using(crate::proofs::Sums::room))]
#[unsafe(no_mangle)]
pub extern "C" fn piskorlu_exact_product(
    w: f64,
    nu: f64,
    words: &mut [u64],
    counts: &mut [u32],
) -> u32
    ensures { def.Left
        (def.reply (def.taken words.old counts.old)
        (acc.add_product (def.state words.old counts.old) w nu))
        result words.old words.new counts.old counts.new }
{
    let Ok(sum) = held(words, counts) else {
        return Refusal::Short.into();
    };
    leave(sum.add_product(w, nu), words, counts)
}

// A whole row from an empty accumulator: 0; or 10, 18 or 17.
#[tactic(auto, using(crate::proofs::Sums::row_room))]
#[unsafe(no_mangle)]
pub extern "C" fn piskorlu_exact_row(
    u: f64,
    w: &[f64],
    nu: &[f64],
    words: &mut [u64],
    counts: &mut [u32],
) -> u32
    ensures { def.Left
        (def.reply (def.taken words.old counts.old)
        (acc.row u w.now nu.now))
        result words.old words.new counts.old counts.new }
{
    if !taken(words, counts) {
        return Refusal::Short.into();
    }
    leave(accumulator::row(u, w, nu), words, counts)
}

// The sign of the exact sum in sign[0]: 0; or 10.
#[tactic(auto, unfolding(crate::specs::Exact::sign_taken))]
#[unsafe(no_mangle)]
pub extern "C" fn piskorlu_exact_sign(words: &[u64], sign: &mut [i8]) -> u32
    ensures { def.Signed (def.sign_taken words.now sign.old)
        result words.now sign.old sign.new }
{
    let Some(own) = words.first_chunk() else {
        return Refusal::Short.into();
    };
    if sign.is_empty() {
        return Refusal::Short.into();
    }
    let sum = Accumulator {
        words: *own,
        ..Accumulator::EMPTY
    };
    sign[0] = sum.sign();
    0
}

// The accumulator in `other` is joined to the one in words and counts, which receive the total: 0; or 10 or 18.
#[tactic(auto, using(crate::proofs::Sums::room), unfolding(crate::specs::Exact::both_taken))]
#[unsafe(no_mangle)]
pub extern "C" fn piskorlu_exact_join(
    words: &mut [u64],
    counts: &mut [u32],
    other: &[u64],
    other_counts: &[u32],
) -> u32
    ensures { def.Left
        (def.reply
        (def.both_taken words.old counts.old other.now other_counts.now)
        (joins.join
        (def.state words.old counts.old)
        (def.state other.now other_counts.now)))
        result words.old words.new counts.old counts.new }
{
    let Ok(own) = held(words, counts) else {
        return Refusal::Short.into();
    };
    let Ok(more) = held(other, other_counts) else {
        return Refusal::Short.into();
    };
    leave(own.join(more), words, counts)
}

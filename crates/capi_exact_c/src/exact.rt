// Exact row sums by plain numbers: 67 words, and two counts, how many products they hold and whether a free motion. A
// call that is refused writes nothing.
ghost use Rattle.accumulator.specs.Accumulators as acc;
ghost use Rattle.accumulator.specs.Joins as joins;
ghost use Rattle.capi_exact.specs.Exact as def;

// A free motion is added: 0; or 10, 18 or 17.
#[unsafe(no_mangle)]
pub extern "C" fn piskorlu_exact_free(u: f64, words: &mut [u64], counts: &mut [u32]) -> u32
    ensures { def.Left
        (def.reply (def.taken words.old counts.old)
        (acc.add_free (def.state words.old counts.old) u))
        result words.old words.new counts.old counts.new }
{
    capi_exact::piskorlu_exact_free(u, words, counts)
}

// A product is added: 0; or 10, 18 or 17.
#[unsafe(no_mangle)]
pub extern "C" fn piskorlu_exact_product(
    w: f64,
    nu: f64,
    words: &mut [u64],
    counts: &mut [u32],
) -> u32
    ensures { def.Left
        (def.reply (def.taken words.old counts.old)
        (acc.add_product (def.state words.old counts.old) w nu))
        result words.old words.new counts.old counts.new }
{
    capi_exact::piskorlu_exact_product(w, nu, words, counts)
}

// A whole row from an empty accumulator: 0; or 10, 18 or 17.
#[unsafe(no_mangle)]
pub extern "C" fn piskorlu_exact_row(
    u: f64,
    w: &[f64],
    nu: &[f64],
    words: &mut [u64],
    counts: &mut [u32],
) -> u32
    ensures { def.Left
        (def.reply (def.taken words.old counts.old)
        (acc.row u w.now nu.now))
        result words.old words.new counts.old counts.new }
{
    capi_exact::piskorlu_exact_row(u, w, nu, words, counts)
}

// The sign of the exact sum in sign[0]: 0; or 10.
#[unsafe(no_mangle)]
pub extern "C" fn piskorlu_exact_sign(words: &[u64], sign: &mut [i8]) -> u32
    ensures { def.Signed (def.sign_taken words.now sign.old)
        result words.now sign.old sign.new }
{
    capi_exact::piskorlu_exact_sign(words, sign)
}

// The accumulator in `other` is joined to the one in words and counts, which receive the total: 0; or 10 or 18.
#[unsafe(no_mangle)]
pub extern "C" fn piskorlu_exact_join(
    words: &mut [u64],
    counts: &mut [u32],
    other: &[u64],
    other_counts: &[u32],
) -> u32
    ensures { def.Left
        (def.reply
        (def.both_taken words.old counts.old other.now other_counts.now)
        (joins.join
        (def.state words.old counts.old)
        (def.state other.now other_counts.now)))
        result words.old words.new counts.old counts.new }
{
    capi_exact::piskorlu_exact_join(words, counts, other, other_counts)
}

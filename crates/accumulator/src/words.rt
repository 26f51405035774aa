// Words added and taken away with what is carried, the lowest word first.
ghost use Rattle.std.specs.Prelude.{◌≡◌, ◌+◌, ◌*◌, ◌/◌, ◌%◌, ◌^◌, ◌≤◌, Bool, true, false, length};
ghost use Rattle.accumulator.specs.Accumulators as acc;
ghost use Rattle.accumulator.specs.Steps as steps;

use crate::WORDS;

// What is done with terms: they are added, or taken away. What is carried is a word: with carrying_add, which carries a
// bool, a join took 174 ns, and takes less than 150 with sums of 128 bits.
pub trait Operation {
    ghost taken: { Bool };

    // A word after x and what is carried are moved, and what is carried then.
    fn step(word: u64, x: u64, carry: u64) -> (u64, u64)
        ensures { steps.Moved taken word result.0 (x + carry) (acc.base * result.1) };
}

// The low and the high word of a number.
pub fn halves(x: u128) -> (u64, u64)
    ensures { (result.0 ≡ x % acc.base) × (result.1 ≡ x / acc.base) }
{
    ((x & 0xffff_ffff_ffff_ffff) as u64, (x >> 64) as u64)
}

pub struct Plus;

impl Operation for Plus {
    ghost taken = { false };

    fn step(word: u64, x: u64, carry: u64) -> (u64, u64) {
        halves(word as u128 + x as u128 + carry as u128)
    }
}

pub struct Minus;

impl Operation for Minus {
    ghost taken = { true };

    // The word owes what is missing of the 2 * 2^64 that it is lent.
    fn step(word: u64, x: u64, carry: u64) -> (u64, u64) {
        let (low, high) = halves((2 << 64) + word as u128 - x as u128 - carry as u128);
        (low, 2 - high)
    }
}

// The terms added to the words from the word k on, or taken from them; and what is carried out of the last of these.
pub fn add_terms<O: Operation>(words: &mut [u64; WORDS], k: usize, terms: &[u64]) -> u64
    requires { k + length terms.now ≤ WORDS }
    ensures { steps.Carried O.taken words.old words.new
        (acc.value terms.now * acc.base ^ k) (result * acc.base ^ (k + length terms.now)) }
{
    let mut carry = 0;
    for (i, x) in terms.iter().enumerate() {
        (words[k + i], carry) = O::step(words[k + i], *x, carry);
    }
    carry
}

// What is carried, added to the word at `from` or taken from it, and on to the next until nothing is carried; and what
// is carried out of the top word.
// The words stay numbered: with `for word in &mut words[from..]` a product of a row took 14.9 ns, and takes 14.3 so.
fn carry_on<O: Operation>(words: &mut [u64; WORDS], from: usize, mut carry: u64) -> u64
    requires { from ≤ WORDS }
    ensures { steps.Carried O.taken words.old words.new
        (carry * acc.base ^ from) (result * acc.size) }
{
    for i in from..WORDS {
        if carry == 0 {
            return 0;
        }
        (words[i], carry) = O::step(words[i], 0, carry);
    }
    carry
}

// Three words added at the word k or taken away there, modulo 2^4288.
pub fn add<O: Operation>(words: &mut [u64; WORDS], k: usize, terms: &[u64; 3])
    requires { k ≤ 64 }
    ensures { words.new ≡ acc.added words.old (acc.signed O.taken (acc.value terms.now * acc.base ^ k)) }
{
    let carry = add_terms::<O>(words, k, terms);
    carry_on::<O>(words, k + 3, carry);
}

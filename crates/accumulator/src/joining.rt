// Two accumulators joined into one.
ghost use Rattle.std.specs.Prelude.{◌≡◌, MatchResult};
ghost use Rattle.accumulator.specs.Joins as joins;

use crate::{Accumulator, MOST_PRODUCTS, words};
use refusals::Refusal;

impl Accumulator {
    // Whether this accumulator and `other` stay within 32 products and one free motion. Counts that no call made may
    // be any.
    #[tactic(auto, unfolding(crate::specs::Joins::joinable))]
    fn joinable(self, other: Accumulator) -> bool
        ensures { result ≡ joins.joinable self other }
    {
        let products = self.products as u64 + other.products as u64;
        products <= MOST_PRODUCTS as u64 && !(self.free && other.free)
    }

    // This accumulator and `other` together: the words add modulo 2^4288, the products add, and a free motion of either
    // is the total's. Refused where that would be more than 32 products or a second free motion.
    pub fn join(mut self, other: Accumulator) -> Result<Accumulator, Refusal>
        ensures { result ≡ joins.join self other }
    {
        self.take_other(&other)?;
        Ok(self)
    }

    // The same in place: this accumulator is the total, and is as it was where the join is refused.
    #[tactic(auto, using(crate::proofs::Together::all_placed), unfolding(crate::specs::Joins::joinable, crate::specs::Joins::joined, crate::specs::Joins::join))]
    pub fn take_other(&mut self, other: &Accumulator) -> Result<(), Refusal>
        ensures { MatchResult result (λ _. Ok self.new ≡ joins.join self.old other.now)
            (λ r. (Err r ≡ joins.join self.old other.now) × (self.new ≡ self.old)) }
    {
        if !self.joinable(*other) {
            return Err(Refusal::ExactFull);
        }
        words::add_terms::<words::Plus>(&mut self.words, 0, &other.words);
        self.products += other.products;
        self.free = self.free || other.free;
        Ok(())
    }
}

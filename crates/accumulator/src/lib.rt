// Exact row sums: a free motion and up to 32 products W_ij * nu_j added without rounding, in a Kulisch (long)
// accumulator. Each call is total, and its contract is an equation with a definition of specs/. The solver does not use
// it: its row sums stay rounded.
#![tactic(auto)]

ghost use Rattle.std.specs.Prelude.{◌≡◌, ◌+◌, ◌<◌, MatchResult};
ghost use Rattle.accumulator.specs.Accumulators as acc;

mod joining;
mod rows;
mod sign;
mod term;
mod words;

use refusals::Refusal;
pub use rows::row;

// How many words an accumulator has.
pub const WORDS: usize = 67;

// The most products that it holds.
pub const MOST_PRODUCTS: u32 = 32;

// A whole number of 2^-2148 in 67 words of 64 bits, the lowest first, two's complement: what was added so far, and how
// much of it.
#[derive(Clone, Copy)]
pub struct Accumulator {
    pub words: [u64; WORDS],
    // How many products it holds, at most 32.
    pub products: u32,
    // Whether it holds a free motion.
    pub free: bool,
}

impl Accumulator {
    // Nothing added yet.
    pub const EMPTY: Accumulator = Accumulator {
        words: [0; WORDS],
        products: 0,
        free: false,
    };

    // A free motion is added: refused if there is one already, then if u is NaN or infinite.
    pub fn add_free(mut self, u: f64) -> Result<Accumulator, Refusal>
        ensures { result ≡ acc.add_free self u }
    {
        self.take_free(u)?;
        Ok(self)
    }

    // A product is added: refused if there are 32 already, then if w or nu is NaN or infinite.
    pub fn add_product(mut self, w: f64, nu: f64) -> Result<Accumulator, Refusal>
        ensures { result ≡ acc.add_product self w nu }
    {
        self.take_product(w, nu)?;
        Ok(self)
    }

    // The same in place, for a row, since the calls above copy 67 words each: the accumulator is as it was where the term
    // is refused.
    #[tactic(auto, unfolding(crate::specs::Accumulators::add_free, crate::specs::Accumulators::with_free))]
    pub fn take_free(&mut self, u: f64) -> Result<(), Refusal>
        ensures { MatchResult result (λ _. Ok self.new ≡ acc.add_free self.old u)
            (λ r. (Err r ≡ acc.add_free self.old u) × (self.new ≡ self.old)) }
    {
        if self.free {
            return Err(Refusal::ExactFull);
        }
        term::add_free(&mut self.words, u)?;
        self.free = true;
        Ok(())
    }

    #[tactic(auto, unfolding(crate::specs::Accumulators::add_product))]
    pub fn take_product(&mut self, w: f64, nu: f64) -> Result<(), Refusal>
        ensures { MatchResult result (λ _. Ok self.new ≡ acc.add_product self.old w nu)
            (λ r. (Err r ≡ acc.add_product self.old w nu) × (self.new ≡ self.old)) }
    {
        if self.products >= MOST_PRODUCTS {
            return Err(Refusal::ExactFull);
        }
        self.put_product(w, nu)
    }

    // A product where there is room for it, as a row knows from its lists' lengths.
    #[tactic(auto, unfolding(crate::specs::Accumulators::add_product, crate::specs::Accumulators::with_product))]
    fn put_product(&mut self, w: f64, nu: f64) -> Result<(), Refusal>
        requires { self.old.products < 32 }
        ensures { MatchResult result
            (λ _. (Ok self.new ≡ acc.add_product self.old w nu) × (self.new.products ≡ self.old.products + 1))
            (λ r. (Err r ≡ acc.add_product self.old w nu) × (self.new ≡ self.old)) }
    {
        term::add_product(&mut self.words, w, nu)?;
        self.products += 1;
        Ok(())
    }
}

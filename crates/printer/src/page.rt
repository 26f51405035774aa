// Text laid into a lent buffer, piece after piece, as far as the buffer goes.
ghost use Rattle.std.specs.Prelude.{◌≤◌, length};

use crate::digit::digit;
use box_rows::{AT_HI, AT_LO, INSIDE};
use boxed::Cause;
use std::num::f64_to_bits_with_nan;

// A buffer that is lent, and how much of it is written.
#[derive(Drop)]
pub struct Page<'a> {
    pub out: &'a mut [u8],
    pub at: usize,
    pub ghost inside: { at ≤ length out.now },
}

// Digits are written by hand: `write!` promises what it writes only where it returns Ok, and of no writer that it does.
impl<'a> Page<'a> {
    ghost use Rattle.std.specs.Prelude.{[], ◌∷◌, ◌++◌, ◌<◌};
    ghost use Rattle.printer.specs.Output as print;
    ghost use Rattle.printer.specs.Pages.{Printed};

    pub fn put(&mut self, byte: u8)
        ensures { Printed self.old self.new (byte ∷ []) }
    {
        if self.at < self.out.len() {
            self.out[self.at] = byte;
            self.at += 1;
        }
    }

    #[tactic(auto, using(crate::proofs::Pages::nothing_printed))]
    pub fn text(&mut self, bytes: &[u8])
        ensures { Printed self.old self.new bytes.now }
    {
        for byte in bytes {
            self.put(*byte);
        }
    }

    pub fn decimal(&mut self, x: u64)
        ensures { Printed self.old self.new (print.decimal x) }
    {
        if x < 10 {
            self.put(digit(x));
        } else {
            self.decimal(x / 10);
            self.put(digit(x % 10));
        }
    }

    // The last `places` hexadecimal digits of x.
    fn hex(&mut self, places: usize, x: u64)
        ensures { Printed self.old self.new (print.hex places x) }
    {
        if places > 0 {
            self.hex(places - 1, x / 16);
            self.put(digit(x % 16));
        }
    }

    // The bits of v: every NaN is printed as one.
    #[tactic(auto, unfolding(crate::specs::Output::pattern))]
    pub fn pattern(&mut self, v: f64)
        ensures { Printed self.old self.new (print.pattern v) }
    {
        self.hex(16, f64_to_bits_with_nan(v));
    }

    // 0 or 1.
    #[tactic(auto, unfolding(crate::specs::Output::flag))]
    pub fn flag(&mut self, on: bool)
        ensures { Printed self.old self.new (print.flag on) }
    {
        self.put(b'0' + u8::from(on));
    }

    #[tactic(auto, unfolding(crate::specs::Output::cause))]
    pub fn cause(&mut self, cause: Cause)
        ensures { Printed self.old self.new (print.cause cause) }
    {
        match cause {
            Cause::Growth => self.text(b"growth"),
            Cause::Pass => self.text(b"pass"),
            Cause::Sweep => self.text(b"sweep"),
        }
    }

    // The letter of a state: I, L, H or Z.
    // The state is a byte, as C lends it and with any value: a RowState would ask more of callers.
    #[tactic(auto, using(std::proofs::lemmas::Bool::Decides::nat_tests), unfolding(crate::specs::Output::letter))]
    pub fn state(&mut self, state: u8)
        ensures { Printed self.old self.new (print.letter state ∷ []) }
    {
        match state {
            INSIDE => self.put(b'I'),
            AT_LO => self.put(b'L'),
            AT_HI => self.put(b'H'),
            _ => self.put(b'Z'),
        }
    }
}

// The bytes of a pull's steps, one after another.
ghost use Rattle.std.specs.Prelude.{◌≡◌, ◌+◌, ◌*◌, ◌≤◌, length, take};
ghost use Rattle.std.specs.Int.{w64, to_le_bytes};
ghost use Rattle.bend_file.specs.Little.{over};
ghost use Rattle.bend_writer.specs.Steps as def;
ghost use Rattle.bend_writer.specs.Private as private;
ghost use Rattle.bend_writer.specs.Write as write;

use crate::StepSize;
use std::num::f64_to_bits_with_nan;

// A lent buffer, and the place in it up to which the file is written.
#[derive(Drop)]
struct Cursor<'a> {
    out: &'a mut [u8],
    at: usize,
}

impl<'a> Cursor<'a> {
    // The N lowest bytes of x, the lowest first.
    fn put<const N: usize>(&mut self, x: u64)
        requires { (N ≤ 8) × (self.old.at + N ≤ length self.old.out.now) }
        ensures { private.Put self.old self.new N (take N (to_le_bytes w64 x)) }
    {
        let end = self.at + N;
        self.out[self.at..end].copy_from_slice(&x.to_le_bytes()[..N]);
        self.at = end;
    }

    // The mark 42 45 4E 44 is the number 444E4542.
    fn put_trailer(&mut self, step: StepSize)
        requires { self.old.at + 16 ≤ length self.old.out.now }
        ensures { private.Put self.old self.new 16 (def.trailer step.rows step.coords step.count) }
    {
        self.put::<4>(4);
        self.put::<2>(step.rows as u64);
        self.put::<2>(step.coords as u64);
        self.put::<4>(step.count as u64);
        self.put::<4>(0x444e_4542);
    }

    // A step that begins at the cursor, where the previous step's trailer ends.
    fn put_step(&mut self, step: StepSize, values: &[f64])
        requires { (step.count ≡ length values.now)
            × (self.old.at + (20 + 8 * step.count) ≤ length self.old.out.now) }
        ensures { private.Put self.old self.new (20 + 8 * step.count)
            (def.step_bytes self.old.at
            (record { rows = step.rows; coords = step.coords; values = values.now })) }
    {
        self.put::<4>(self.at as u64);
        for value in values {
            self.put::<8>(f64_to_bits_with_nan(*value));
        }
        self.put_trailer(step);
    }
}

// All steps, oldest first, from the front of `out` on.
pub fn put_steps(out: &mut [u8], steps: &[StepSize], values: &[f64])
    requires { private.Room (write.pulled steps.now values.now) (length out.old) }
    ensures { out.new ≡ over (def.file (write.pulled steps.now values.now)) out.old }
{
    let mut cursor = Cursor { out, at: 0 };
    let mut left = values;
    for step in steps {
        let (own, behind) = left.split_at(step.count);
        cursor.put_step(*step, own);
        left = behind;
    }
}

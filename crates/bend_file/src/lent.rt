// The buffers that a problem is read into, and the values of a file that fill them.
ghost use Rattle.std.specs.Prelude.{◌≡◌, ◌+◌, ◌*◌, ◌≤◌, length};
ghost use Rattle.bend_file.specs.Little as little;
ghost use Rattle.bend_file.specs.Read as read;
ghost use Rattle.bend_file.specs.Chain as chain;
ghost use Rattle.bend_file.specs.Private as private;

use crate::Shape;
use crate::little::f64_at;
use crate::trailer::{MAX_MOTION, MAX_ROWS, Values};

#[derive(Drop)]
pub struct Lent<'a> {
    pub w: &'a mut [f64],
    pub u_free: &'a mut [f64],
    pub lo: &'a mut [f64],
    pub hi: &'a mut [f64],
    pub scale: &'a mut [f64],
    pub nu: &'a mut [f64],
    pub motion: &'a mut [f64],
}

impl<'a> Lent<'a> {
    // Whether they have room for the largest problem.
    pub fn is_roomy(&self) -> bool
        ensures { result ≡ chain.roomy (private.held self.now) }
    {
        self.w.len() >= MAX_ROWS * MAX_ROWS
            && self.u_free.len() >= MAX_ROWS
            && self.lo.len() >= MAX_ROWS
            && self.hi.len() >= MAX_ROWS
            && self.scale.len() >= MAX_ROWS
            && self.nu.len() >= MAX_ROWS
            && self.motion.len() >= MAX_MOTION
    }

    // Fills the front of each with the problem's values.
    pub fn fill(&mut self, file: &[u8], at: Values) -> Shape
        requires inside { private.Inside file.now at }
        requires room { private.Room at.rows at.coords (private.held self.old) }
        ensures shape { result ≡ read.shape (private.problem file.now at) }
        ensures buffers { private.held self.new
            ≡ read.with_problem (private.problem file.now at) (private.held self.old) }
        ensures same { private.Same self.old self.new }
    {
        let Values {
            start,
            rows,
            coords,
            ..
        } = at;
        let mut next = Next { file, at: start };
        next.fill(self.w, rows * rows);
        next.fill(self.u_free, rows);
        next.fill(self.lo, rows);
        next.fill(self.hi, rows);
        next.fill(self.scale, rows);
        next.fill(self.nu, rows);
        next.fill(self.motion, coords * rows);
        Shape {
            rows,
            coords,
            tolerance: f64_at(file, next.at),
        }
    }
}

// The values of a file that come next.
#[derive(Clone, Copy)]
struct Next<'a> {
    file: &'a [u8],
    at: usize,
}

impl<'a> Next<'a> {
    // Fills the front of a list with the next `count` of them.
    fn fill(&mut self, out: &mut [f64], count: usize)
        requires inside { self.old.at + 8 * count ≤ length self.old.file.now }
        requires room { count ≤ length out.old }
        ensures out { out.new ≡ little.over (little.values self.old.file.now self.old.at 0 count) out.old }
        ensures file { self.new.file ≡ self.old.file }
        ensures at { self.new.at ≡ self.old.at + 8 * count }
    {
        for value in &mut out[..count] {
            *value = f64_at(self.file, self.at);
            self.at += 8;
        }
    }
}

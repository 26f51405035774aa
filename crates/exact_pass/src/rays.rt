// The ray test: whether the problem falls without end along a direction y, and the rows where y is not zero.
ghost use Rattle.std.specs.Prelude.{◌≡◌, ◌<◌, ◌≤◌, [], length};
ghost use Rattle.box_rows.specs.Lent.{of};
ghost use Rattle.exact_pass.specs.Ray as rays;
ghost use Rattle.exact_pass.specs.Walk as walks;
ghost use Rattle.exact_pass.specs.Promise as promise;
ghost use Rattle.exact_pass.specs.Private as private;
ghost use Rattle.exact_pass.specs.Below.{Below};
ghost use Rattle.box_rows.specs.Rows as box;
ghost use Rattle.floats.specs.Ops.{at};

use crate::row_values::RowValues;
use crate::{DIVERGENCE, EXACT_RESIDUAL, RayRows};
use arrayvec::ArrayVec;
use box_rows::problem::ProblemRow;
use box_rows::{IDLE, MAX_ROWS, grows, size_of};

// The largest size of a row that acts.
#[tactic(auto, using(crate::proofs::Loops::turning), unfolding(crate::specs::Private::largest, crate::specs::Private::largest_row))]
fn largest(motion: &RowValues) -> f64
    ensures { result
        ≡ private.largest motion.now.problem.now.scale.now motion.now.states.now motion.now.values.now
        (length motion.now.values.now) }
{
    let scale = motion.problem.scale;
    let states = motion.states;
    let mut worst = 0.0;
    for (a, y) in motion.values.iter().enumerate() {
        if states[a] != IDLE {
            worst = floats::larger(worst, size_of(*y, scale[a]));
        }
    }
    worst
}

// The rows that count, into an empty list, with how many and their farthest, in one walk; or none where one that counts
// may not grow. A row does not count where it is Idle or moves next to nothing.
fn collect(motion: &RowValues, least: f64, rows: &mut ArrayVec<usize, MAX_ROWS>) -> Option<RayRows>
    requires { rows.old.items ≡ [] }
    ensures { private.Collected result rows.new.items (length motion.now.values.now)
        (walks.walked motion.now.problem.now.lo.now motion.now.problem.now.hi.now motion.now.problem.now.scale.now
        motion.now.states.now motion.now.values.now least (length motion.now.values.now)) }
{
    let p = motion.problem;
    let states = motion.states;
    let mut farthest = 0.0;
    for (a, y) in motion.values.iter().enumerate() {
        let size = size_of(*y, p.scale[a]);
        if states[a] == IDLE || size <= least {
            continue;
        }
        if !grows(*y, p.lo[a], p.hi[a]) {
            return None;
        }
        rows.push(a);
        farthest = floats::larger(farthest, size);
    }
    Some(RayRows {
        count: rows.len(),
        farthest,
    })
}

// A direction, and the rows of the ray along it.
#[derive(Clone, Copy)]
pub struct RayView<'a> {
    pub motion: &'a RowValues<'a, 'a, 'a, 'a>,
    pub rows: &'a [usize],
    pub ghost below: { Below (length motion.now.values.now) rows.now },
}

// lin: u_free times the direction, summed over the rows of the ray.
#[tactic(auto, using(crate::proofs::Loops::turning), unfolding(crate::specs::Private::linear))]
fn linear(ray: &RayView) -> f64
    ensures { result
        ≡ private.linear ray.now.motion.now.problem.now.u_free.now ray.now.motion.now.values.now ray.now.rows.now
        (length ray.now.rows.now) }
{
    let u_free = ray.motion.problem.u_free;
    let y = ray.motion.values;
    let mut s = 0.0;
    for row in ray.rows {
        s = s + u_free[*row] * y[*row];
    }
    s
}

// quad with row a of the matrix more.
// The row goes by its number: a ProblemRow would have to be asked to be of the ray's problem.
#[tactic(auto, using(crate::proofs::Loops::turning), unfolding(crate::specs::Private::quadratic_row))]
fn quadratic_row(ray: &RayView, a: usize, quad: f64) -> f64
    requires { a < length ray.now.motion.now.values.now }
    ensures { result
        ≡ private.quadratic_row
        (box.row ray.now.motion.now.problem.now.w.now (length ray.now.motion.now.values.now) a)
        (at ray.now.motion.now.values.now a) ray.now.motion.now.values.now ray.now.rows.now quad
        (length ray.now.rows.now) }
{
    let row = ProblemRow {
        problem: ray.motion.problem,
        i: a,
    }
    .entries();
    let y = ray.motion.values;
    let v = y[a];
    let mut q = quad;
    for column in ray.rows {
        q = q + v * row[*column] * y[*column];
    }
    q
}

// quad: the direction times W times the direction, summed over the rows of the ray and its columns.
#[tactic(auto, using(crate::proofs::Loops::turning), unfolding(crate::specs::Private::quadratic))]
fn quadratic(ray: &RayView) -> f64
    ensures { result
        ≡ private.quadratic ray.now.motion.now.problem.now.w.now (length ray.now.motion.now.values.now)
        ray.now.motion.now.values.now ray.now.rows.now (length ray.now.rows.now) }
{
    let mut q = 0.0;
    for row in ray.rows {
        q = quadratic_row(ray, *row, q);
    }
    q
}

// Along nu + t y the problem falls as t · lin + t² · quad / 2: without end if quad is zero, else to its least at
// t = −lin / quad.
#[tactic(auto, unfolding(crate::specs::Private::falls))]
fn falls(ray: &RayView, far: f64) -> bool
    ensures { result ≡ private.falls
        (private.linear ray.now.motion.now.problem.now.u_free.now ray.now.motion.now.values.now ray.now.rows.now
        (length ray.now.rows.now))
        (private.quadratic ray.now.motion.now.problem.now.w.now (length ray.now.motion.now.values.now)
        ray.now.motion.now.values.now ray.now.rows.now (length ray.now.rows.now))
        far }
{
    let lin = linear(ray);
    if lin >= 0.0 {
        return false;
    }
    let quad = quadratic(ray);
    if quad <= 0.0 {
        return true;
    }
    -lin / quad * far > DIVERGENCE
}

// The ray test: the rows of the ray at the front of `rows`, and how many. Where there is no ray, nothing is changed.
// The row list is lent on to here, its one place: a type with its room would be made at the entry for this alone.
pub fn ray(motion: &RowValues, rows: &mut [usize]) -> Option<usize>
    requires list { length motion.now.problem.now.u_free.now ≤ length rows.old }
    ensures { promise.Front
        (rays.ray (of motion.now.problem.now) motion.now.states.now motion.now.values.now) rows.old result rows.new }
{
    let s = largest(motion);
    if s == 0.0 {
        return None;
    }
    let mut list = ArrayVec::new();
    let found = collect(motion, EXACT_RESIDUAL * s, &mut list)?;
    let l = list.as_slice();
    let ray = RayView { motion, rows: l };
    if falls(&ray, found.farthest) {
        rows[..found.count].copy_from_slice(l);
        return Some(found.count);
    }
    None
}

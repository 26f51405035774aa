// Growth: the rows whose multiplier is past a million scales, Idle rows included.
ghost use Rattle.std.specs.Prelude.{◌≡◌, ◌≤◌, length};
ghost use Rattle.exact_pass.specs.Promise.{Front};
ghost use Rattle.boxed.specs.Sweep as sweep;

// Puts their numbers at the front of `rows`, in rising order, and answers how many there are, if there are any.
pub fn grown(nu: &[f64], scale: &[f64], rows: &mut [usize]) -> Option<usize>
    requires scales { length scale.now ≡ length nu.now }
    requires listed { length nu.now ≤ length rows.old }
    ensures { Front (sweep.grown nu.now scale.now (length nu.now)) rows.old result rows.new }
{
    let mut k = 0;
    for (i, multiplier) in nu.iter().enumerate() {
        if floats::abs(*multiplier) > exact_pass::DIVERGENCE * scale[i] {
            rows[k] = i;
            k += 1;
        }
    }
    if k == 0 { None } else { Some(k) }
}

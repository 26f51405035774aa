// The mirrored matrix of a lower triangle by rows, row by row.
ghost use Rattle.std.specs.Prelude.{◌≡◌, ◌+◌, ◌*◌, ◌≤◌, ◌<◌, length};
ghost use Rattle.triangle.specs.Triangle as triangle;

// A lower triangle of at most 32 rows, row by row.
#[derive(Clone, Copy)]
pub struct Triangle<'a> {
    pub values: &'a [f64],
    pub n: usize,
    pub ghost few: { n ≤ 32 },
    pub ghost long: { length values.now ≡ triangle.row_start n },
}

// Where row i of a triangle begins; at n, the length of a triangle of n rows.
#[tactic(auto, using(loops::proofs::Index::product), unfolding(crate::specs::Triangle::row_start))]
pub fn row_start(i: usize) -> usize
    requires { i ≤ 32 }
    ensures { result ≡ triangle.row_start i }
{
    i * (i + 1) / 2
}

// The place of the next column's value: along the triangle's row up to the diagonal, and then a row further down in each
// step.
fn next(place: usize, i: usize, j: usize) -> usize
    requires { (i < 32) × (j < 32) × (place ≡ triangle.place i j) }
    ensures { result ≡ triangle.place i (j + 1) }
{
    if j < i { place + 1 } else { place + j + 1 }
}

impl<'a> Triangle<'a> {
    // Row i of the mirrored matrix.
    fn row(&self, i: usize, out: &mut [f64])
        requires inside { i < self.now.n }
        requires long { length out.old ≡ self.now.n }
        ensures { out.new ≡ triangle.mirror_row self.now.values.now self.now.n i }
    {
        let mut place = row_start(i);
        for (j, entry) in out.iter_mut().enumerate() {
            *entry = self.values[place];
            place = next(place, i, j);
        }
    }

    // The matrix in w, in rows of n.
    pub fn mirror(&self, w: &mut [f64])
        requires { length w.old ≡ self.now.n * self.now.n }
        ensures { w.new ≡ triangle.mirrored self.now.n self.now.values.now }
    {
        let n = self.n;
        for i in 0..n {
            self.row(i, &mut w[i * n..(i + 1) * n]);
        }
    }
}

// The size of a matrix that is kept row by row, and a matrix that is read: the entry in row i and column c stands at
// i * n + c.
ghost use Rattle.std.specs.Prelude.{◌*◌, ◌≤◌, length};

// m rows of n entries, few enough. Entries that are written are lent beside it: a struct that held them as a `&mut`
// would have each function that writes promise that m, n and the reference stay.
#[derive(Clone, Copy)]
pub struct Size {
    pub m: usize,
    pub n: usize,
    pub ghost rows: { m ≤ 32 },
    pub ghost columns: { n ≤ 32 },
}

impl Size {
    ghost use Rattle.std.specs.Prelude.{◌<◌};
    ghost use Rattle.least_norm.specs.Private.{Place};

    // The place of row i and column c.
    pub fn place(self, i: usize, c: usize) -> usize
        requires { (i < self.m) × (c ≤ self.n) }
        ensures { Place self.m self.n i c result }
    {
        i * self.n + c
    }
}

// A matrix that is read. More may stand past its entries.
#[derive(Clone, Copy)]
pub struct MatrixView<'a> {
    pub entries: &'a [f64],
    pub size: Size,
    pub ghost holds: { size.m * size.n ≤ length entries.now },
}

impl<'a> MatrixView<'a> {
    ghost use Rattle.std.specs.Prelude.{◌≡◌, ◌+◌, ◌*◌, ◌<◌};
    ghost use Rattle.floats.specs.Ops.{at};
    ghost use Rattle.least_norm.specs.Private.{row};

    // The entry in row i and column c.
    pub fn at(&self, i: usize, c: usize) -> f64
        requires { (i < self.now.size.m) × (c < self.now.size.n) }
        ensures { result ≡ at self.now.entries.now (i * self.now.size.n + c) }
    {
        self.entries[self.size.place(i, c)]
    }

    // Row i.
    pub fn row(&self, i: usize) -> &'a [f64]
        requires { i < self.now.size.m }
        ensures { result.now ≡ row self.now.size.n i self.now.entries.now }
    {
        let n = self.size.n;
        &self.entries[i * n..(i + 1) * n]
    }
}

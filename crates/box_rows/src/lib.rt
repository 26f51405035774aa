// One row of a box problem, by its numbers: its update, its natural residual, the state that its multiplier shows, its
// row sum, and its part in an exact pass and in a ray. Each call is total by nature.
// Bounds stay two numbers, as in clamp: the lists hold them apart, so that a pair would be made for a single call.
#![tactic(auto)]

ghost use Rattle.std.specs.Prelude.{◌≡◌, unwrap_or};
ghost use Rattle.box_rows.specs.Rows as box;
ghost use Rattle.box_rows.specs.Private as private;
ghost use Rattle.box_rows.specs.States as states;
ghost use Rattle.box_rows.specs.declared.Blocking.{Blocking};

pub mod problem;

use floats::Clamped;

// The most rows of a problem.
pub const MAX_ROWS: usize = 32;

// How near a bound, over the row's scale, a multiplier must be for its row to count as on the bound.
pub const ON_A_BOUND: f64 = 1e-9;

// A row's state. A list of states is lent by C, so that it has a byte for each row, which the constants name.
#[derive(Clone, Copy, PartialEq, Eq)]
pub enum RowState {
    // Strictly inside the box.
    Inside = 0,
    // On the lower bound.
    AtLo = 1,
    // On the upper bound.
    AtHi = 2,
    // Unable to act.
    Idle = 3,
}

pub const INSIDE: u8 = RowState::Inside as u8;

pub const AT_LO: u8 = RowState::AtLo as u8;

pub const AT_HI: u8 = RowState::AtHi as u8;

pub const IDLE: u8 = RowState::Idle as u8;

impl From<RowState> for u8 {
    ghost from_gives = { λ s b. b ≡ states.byte s };

    fn from(state: RowState) -> u8 {
        state as u8
    }
}

// A row's numbers: its multiplier, its row sum, its diagonal and its box.
#[derive(Clone, Copy)]
pub struct Row {
    pub nu: f64,
    pub u: f64,
    pub diagonal: f64,
    pub lo: f64,
    pub hi: f64,
}

// The row that blocks a step, and its state there.
#[derive(Clone, Copy)]
pub struct Block {
    pub row: usize,
    pub state: RowState,
}

// How far the boxes let a step go, and what blocks it, if a row does.
#[derive(Clone, Copy)]
pub struct Blocking {
    pub alpha: f64,
    pub block: Option<Block>,
}

// Where a row's update puts its multiplier, and the side at which it is stopped.
#[tactic(auto, unfolding(crate::specs::Rows::update, crate::specs::Rows::update_side))]
pub fn update(row: Row) -> Clamped
    ensures { box.Updated row result }
{
    floats::clamp(row.nu - row.u / row.diagonal, row.lo, row.hi)
}

// How far the update would move the multiplier, over the row's scale.
#[tactic(auto, unfolding(crate::specs::Rows::natural_residual))]
pub fn natural_residual(row: Row, scale: f64) -> f64
    ensures { result ≡ box.natural_residual row.nu row.u row.diagonal row.lo row.hi scale }
{
    let to = update(row);
    floats::abs(row.nu - to.value) / scale
}

// Whether a bound is finite and the gap to it small.
#[tactic(auto, unfolding(crate::specs::Rows::on_bound))]
fn on_bound(bound: f64, gap: f64, s: f64) -> bool
    ensures { result ≡ box.on_bound bound gap s }
{
    floats::is_finite(bound) && gap <= ON_A_BOUND * s
}

// The state that a multiplier v shows: near both bounds the lower one wins.
#[tactic(auto, unfolding(crate::specs::Rows::state_of))]
pub fn state_of(lo: f64, hi: f64, s: f64, v: f64) -> RowState
    ensures { states.byte result ≡ box.state_of lo hi s v }
{
    if on_bound(lo, v - lo, s) {
        return RowState::AtLo;
    }
    if on_bound(hi, hi - v, s) {
        return RowState::AtHi;
    }
    RowState::Inside
}

// Whether a row cannot act: its diagonal is NaN or at most 0.
#[tactic(auto, unfolding(crate::specs::Rows::is_idle))]
pub fn is_idle(d: f64) -> bool
    ensures { result ≡ box.is_idle d }
{
    floats::is_nan(d) || d <= 0.0
}

// The multiplier of a row in a state: a row on a bound has that bound.
// The state is a byte, as C lends it and with any value: a RowState would ask more of callers.
pub fn placed(lo: f64, hi: f64, state: u8, v: f64) -> f64
    ensures { result ≡ box.placed lo hi state v }
{
    match state {
        AT_LO => lo,
        AT_HI => hi,
        _ => v,
    }
}

// Whether a row on a bound is pushed inside: u is its row sum. The state is a byte, as in `placed`.
#[tactic(auto, unfolding(crate::specs::Rows::pushed))]
pub fn pushed(state: u8, u: f64) -> bool
    ensures { result ≡ box.pushed state u }
{
    match state {
        AT_LO => u < 0.0,
        AT_HI => u > 0.0,
        _ => false,
    }
}

// The row blocks the step in that state, if its ratio is below alpha.
#[tactic(auto, unfolding(crate::specs::Private::nearer))]
fn nearer(row: usize, state: RowState, ratio: f64, alpha: f64) -> Option<Blocking>
    ensures { (r : Blocking) → r.alpha ≡ alpha → unwrap_or result r ≡ private.nearer row state ratio r }
{
    if ratio < alpha {
        return Some(Blocking {
            alpha: floats::larger(ratio, 0.0),
            block: Some(Block { row, state }),
        });
    }
    None
}

// The ratio test of row a at v, which moves by y, where the rows before it let the step go as far as alpha: what the
// row makes of it, if it blocks the step sooner.
#[tactic(auto, unfolding(crate::specs::Rows::ratio_row, crate::specs::Private::nearer))]
pub fn ratio_row(a: usize, v: f64, y: f64, lo: f64, hi: f64, alpha: f64) -> Option<Blocking>
    ensures { (r : Blocking) → r.alpha ≡ alpha → unwrap_or result r ≡ box.ratio_row a v y lo hi r }
{
    if y > 0.0 {
        return nearer(a, RowState::AtHi, (hi - v) / y, alpha);
    }
    if y < 0.0 {
        return nearer(a, RowState::AtLo, (lo - v) / y, alpha);
    }
    None
}

// How far a row of scale s moves along y, over its scale.
#[tactic(auto, unfolding(crate::specs::Rows::size_of))]
pub fn size_of(y: f64, s: f64) -> f64
    ensures { result ≡ box.size_of y s }
{
    floats::abs(y) / s
}

// Whether a multiplier may grow without end along y.
#[tactic(auto, unfolding(crate::specs::Rows::grows))]
pub fn grows(y: f64, lo: f64, hi: f64) -> bool
    ensures { result ≡ box.grows y lo hi }
{
    let up = (y > 0.0) & (hi == f64::INFINITY);
    let down = (y < 0.0) & (lo == f64::NEG_INFINITY);
    up | down
}

// u, then + each entry of the row times its multiplier, from the left, as long as there are both.
pub fn row_sum(row: &[f64], u: f64, nu: &[f64]) -> f64
    ensures { result ≡ box.row_sum row.now u nu.now }
{
    let mut s = u;
    for (entry, multiplier) in row.iter().zip(nu) {
        s = s + *entry * *multiplier;
    }
    s
}

// Why a call is refused. Documents 01 and 02 give each cause a number, in the order in which a call looks for it.
#![tactic(auto)]

ghost use Rattle.std.specs.Prelude.{◌≡◌};
ghost use Rattle.refusals.specs.Numbers as numbers;

#[derive(Clone, Copy, PartialEq, Eq)]
pub enum Refusal {
    // A bend file of a length that none has; a step of a chained one that ends where none can.
    FileSize = 1,
    // The mark at the end differs.
    FileMark = 2,
    // More rows or motion than a problem may have.
    FileLimits = 3,
    // A count of values that is not the shape's, or is not the length between two places.
    FileCount = 4,
    // A problem of too many rows, or too much motion.
    TooLarge = 5,
    // A matrix that has not as many rows and columns as the problem.
    NotSquare = 6,
    // Bounds, scales or multipliers that are not one for each row.
    Unequal = 7,
    // A scale that is NaN, infinite or not above 0.
    Scale = 8,
    // Motion that is no whole number of rows.
    Motion = 9,
    // A lent buffer that is too short.
    Short = 10,
    // A tally that has no room for another solve.
    Tally = 11,
    // A system for least norm whose sizes do not fit one another.
    LeastNorm = 12,
    // A count of two joined reports that is too large.
    Join = 13,
    // A link that points past where its step could begin.
    Link = 14,
    // A chain of no step, or of more than 40.
    Steps = 15,
    // A triangle that has not as many values as the problem's matrix.
    Triangle = 16,
    // A value that is NaN or infinite, where a sum is exact.
    NotFinite = 17,
    // A sum that would hold more than 32 products, or a second free motion.
    ExactFull = 18,
}

impl From<Refusal> for u32 {
    ghost from_gives = { λ r k. k ≡ numbers.number r };

    fn from(refusal: Refusal) -> u32 {
        refusal as u32
    }
}

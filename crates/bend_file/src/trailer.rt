// The trailer of a bend file and the rules that it keeps.
ghost use Rattle.std.specs.Prelude.{◌≡◌, leb, ◌&&◌, ◌+◌, ◌*◌, ◌<◌, ◌≤◌, ◌^◌, length, IfOk};
ghost use Rattle.refusals.specs.Calls.{unless};
ghost use Rattle.bend_file.specs.Trailer as trailer;
ghost use Rattle.bend_file.specs.Private as private;

use crate::little::bytes_at;
use refusals::Refusal;

// The most rows of a problem, and the most values of its motion. The solver's crates name the same limits of their own,
// since a reader of files stands on no solver, nor a solver on a reader.
pub const MAX_ROWS: usize = 32;

pub const MAX_MOTION: usize = 2048;

// The bytes of a trailer, and the fewest of a file.
pub const TRAILER: usize = 16;

// The most bytes of a bend file by itself.
const MAX_BYTES: usize = 65536;

// Where the values of a problem start, and how many rows, coordinates and values there are.
#[derive(Clone, Copy)]
pub struct Values {
    pub start: usize,
    pub rows: usize,
    pub coords: usize,
    pub count: usize,
}

impl Values {
    // Where a trailer just behind the values ends.
    pub fn end(self) -> usize
        requires { self.start + 8 * self.count < 2 ^ 63 }
        ensures { result ≡ self.start + 8 * self.count + 16 }
    {
        self.start + 8 * self.count + TRAILER
    }
}

// Document 01's rules in their order.
pub fn of_file(file: &[u8]) -> Result<Values, Refusal>
    ensures { result ≡ unless (trailer.refusal file.now) (private.values file.now (length file.now)) }
{
    let end = file.len();
    if !sized(end, MAX_BYTES) {
        return Err(Refusal::FileSize);
    }
    let values = read(file)?;
    if values.end() != end {
        return Err(Refusal::FileCount);
    }
    Ok(values)
}

// The fields of the trailer that the file ends with, where it has the mark and they keep the rules of a problem's size.
pub fn read(file: &[u8]) -> Result<Values, Refusal>
    requires { 16 ≤ length file.now }
    ensures read { result
        ≡ unless (trailer.trailer_refusal file.now (length file.now)) (private.values file.now (length file.now)) }
    ensures fits { IfOk result (λ v. (v.start < 2 ^ 32) × (v.count < 2 ^ 32)) }
{
    if !file.ends_with(b"BEND") {
        return Err(Refusal::FileMark);
    }
    let end = file.len();
    let rows = usize::from(u16::from_le_bytes(bytes_at(file, end - 12)));
    let coords = usize::from(u16::from_le_bytes(bytes_at(file, end - 10)));
    let wanted = value_count(rows, coords).ok_or(Refusal::FileLimits)?;
    let count = u32::from_le_bytes(bytes_at(file, end - 8)) as usize;
    if count != wanted {
        return Err(Refusal::FileCount);
    }
    Ok(Values {
        start: u32::from_le_bytes(bytes_at(file, end - TRAILER)) as usize,
        rows,
        coords,
        count,
    })
}

// How many values a problem of so many rows and coordinates has, where one may have so many.
pub fn value_count(rows: usize, coords: usize) -> Option<usize>
    ensures { result ≡ trailer.value_count rows coords }
{
    let motion = coords.checked_mul(rows)?;
    if rows > MAX_ROWS || motion > MAX_MOTION {
        return None;
    }
    Some(rows * rows + 5 * rows + motion + 1)
}

// Whether so many bytes have room for a trailer and are not too many.
pub fn sized(bytes: usize, most: usize) -> bool
    ensures { result ≡ (leb 16 bytes && leb bytes most) }
{
    (TRAILER..=most).contains(&bytes)
}

// An input read to its end.
ghost use Rattle.std.specs.Prelude.{◌≤◌, length, IfOk};

use std::io;
use std::io::Read;

// Why an input is not taken.
#[derive(Clone, Copy)]
pub enum Untaken {
    // It has more than the buffer holds.
    TooLong,
    // A read failed, and why: what was read until then is not taken for the whole.
    Failed(io::Error),
}

impl From<io::Error> for Untaken {
    fn from(error: io::Error) -> Untaken {
        Untaken::Failed(error)
    }
}

// Reads an input to its end, to the buffer's front, and gives what it is.
pub fn read<'a>(reader: &mut impl Read, buffer: &'a mut [u8]) -> Result<&'a [u8], Untaken>
    ensures { IfOk result (λ input. length input.now ≤ length buffer.old) }
{
    let room = buffer.len();
    let (input, end) = reading::read_full(reader, buffer);
    end?;
    if input.len() == room && reader.read(&mut [0u8; 1])? > 0 {
        return Err(Untaken::TooLong);
    }
    Ok(input)
}

// An input read as far as a lent buffer goes, for the programs.
#![tactic(auto)]

ghost use Rattle.std.specs.Prelude.{◌<◌, ◌≤◌, length, OnOk};
ghost use Rattle.std.specs.Io.KnownBytes.{Consumes, IsAtEnd};

use std::io;
use std::io::Read;

// Reads to the front of a buffer until it is full, the input ends or a read fails. What was read, and that no read
// failed, or why one did.
// A lent buffer in place of the Vec of `read_to_end`: nothing here allocates, so no want of memory has to be told of.
// The loop is a `while`, since it goes on by what a read gave.
pub fn read_full<'a, R: Read>(from: &mut R, buffer: &'a mut [u8]) -> (&'a [u8], io::Result<()>)
    ensures bytes { Consumes (R.remaining from.old) (R.remaining from.new) result.0.now }
    ensures room { length result.0.now ≤ length buffer.old }
    ensures end { OnOk result.1 (length result.0.now < length buffer.old → IsAtEnd (R.remaining from.new)) }
{
    let mut done = 0;
    while done < buffer.len() {
        match from.read(&mut buffer[done..]) {
            Ok(0) => return (&buffer[..done], Ok(())),
            Ok(more) => done += more,
            Err(error) => return (&buffer[..done], Err(error)),
        }
    }
    (buffer, Ok(()))
}

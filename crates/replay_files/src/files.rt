// The files 000.bend, 001.bend and so on, each beside what must be printed for it: 000.txt, 001.txt.
ghost use Rattle.std.specs.Prelude.{◌≤◌, length};

use std::fmt::InlineText;
use std::io::Read;
use std::rt::Files;
use std::{fs, io};

// The name of file i, of three digits, or of what must be printed for it.
fn name_of(i: usize, ending: &str) -> InlineText<8> {
    InlineText::of(format_args!("{i:03}.{ending}"))
}

// Reads a file until the buffer is full, the file ends or a read fails, and closes it, so that one file is open at a
// time.
fn take<'a, R: Read + Drop>(mut file: R, buffer: &'a mut [u8]) -> &'a [u8]
    ensures { length result.now ≤ length buffer.old }
{
    reading::read_full(&mut file, buffer).0
}

// Reads what must be printed for file i; where its file cannot be opened, that is nothing.
fn take_answer<'a>(rt: &impl Files, i: usize, buffer: &'a mut [u8]) -> &'a [u8]
    ensures { length result.now ≤ length buffer.old }
{
    match fs::open(rt, name_of(i, "txt").as_str()) {
        Ok(file) => take(file, buffer),
        Err(_) => &[],
    }
}

// Whether something else is printed for the file than is stored.
fn differs(file: &[u8], stored: &[u8]) -> bool {
    let mut out = [0u8; answer::ROOM];
    let count = answer::of_file(file, &mut out);
    &out[..count] != stored
}

// The same of file i, which is open.
fn replayed<R: Read + Drop>(rt: &impl Files, file: R, i: usize, buffer: &mut [u8]) -> bool {
    let mut stored = [0u8; answer::ROOM + 1];
    let bytes = take(file, buffer);
    differs(bytes, take_answer(rt, i, &mut stored))
}

fn report(rt: &impl Print, count: u64, differing: u64) -> io::Result<()> {
    println!(rt; "bend files: {count} replayed, {differing} differing")
}

// As many as there are, at most a thousand. The longest file is one byte longer than a bend file may be.
// Fixed memory: nothing here allocates.
pub fn replay(rt: &(impl Files + Print)) -> io::Result<()> {
    let mut buffer = [0u8; 65537];
    let mut count: u64 = 0;
    let mut differing: u64 = 0;
    for i in 0..1000 {
        let Ok(file) = fs::open(rt, name_of(i, "bend").as_str()) else {
            break;
        };
        count += 1;
        differing += u64::from(replayed(rt, file, i, &mut buffer));
    }
    report(rt, count, differing)
}

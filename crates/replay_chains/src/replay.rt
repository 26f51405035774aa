// The files in their order, each with a line for its number or its steps, and a line for each step.
use crate::sum;
use bend_file::{Shape, chain};
use refusals::Refusal;
use std::fmt::InlineText;
use std::io::Read;
use std::rt::Files;
use std::{fs, io};

// Where a step ends, its rows and coordinates, and the check sum of its buffers, the parts that stay 0 among them. The
// buffers stay apart, as `read_step` is lent them.
fn step(rt: &impl Print, file: &[u8], k: usize, end: usize) -> io::Result<()> {
    let mut w = [0.0f64; 1024];
    let mut u_free = [0.0f64; 32];
    let mut lo = [0.0f64; 32];
    let mut hi = [0.0f64; 32];
    let mut scale = [0.0f64; 32];
    let mut nu = [0.0f64; 32];
    let mut motion = [0.0f64; 2048];
    let reading = chain::read_step(
        file,
        k,
        &mut w,
        &mut u_free,
        &mut lo,
        &mut hi,
        &mut scale,
        &mut nu,
        &mut motion,
    );
    let a = sum::over(sum::over(sum::over(0, &w), &u_free), &lo);
    let b = sum::over(sum::over(sum::over(a, &hi), &scale), &nu);
    told(rt, reading, end, sum::over(b, &motion))
}

fn told(
    rt: &impl Print,
    reading: Result<Option<Shape>, Refusal>,
    end: usize,
    sum: u64,
) -> io::Result<()> {
    match reading {
        Err(refusal) => println!(rt; "  refused {}", u32::from(refusal)),
        Ok(None) => println!(rt; "  no step 0"),
        Ok(
            Some(
                Shape {
                    rows,
                    coords,
                    tolerance,
                },
            ),
        ) => {
            let sum = sum::with(sum, tolerance);
            println!(rt; "  end {end} rows {rows} coords {coords} sum {sum}")
        }
    }
}

// The number of a file's refusal, or its steps and the answer for one step more, where a pull may have it.
fn file(rt: &impl Print, bytes: &[u8]) -> io::Result<()> {
    let found = match chain::steps(bytes) {
        Ok(found) => found,
        Err(refusal) => return println!(rt; " refused {}", u32::from(refusal)),
    };
    println!(rt; " steps {}", found.count)?;
    let asked = found.count.saturating_add(1);
    for (k, end) in found.ends.iter().enumerate().take(asked) {
        step(rt, bytes, k, *end)?;
    }
    Ok(())
}

// File i, which is open.
fn replayed(
    rt: &impl Print,
    opened: &mut impl Read,
    i: usize,
    buffer: &mut [u8],
) -> io::Result<()> {
    let (bytes, _) = reading::read_full(opened, buffer);
    print!(rt; "{i}")?;
    file(rt, bytes)
}

// As many as there are, at most a thousand, with names of three digits. The longest file is one byte longer than a
// chained bend file may be.
// Fixed memory: nothing here allocates.
pub fn replay(rt: &(impl Files + Print)) -> io::Result<()> {
    let mut buffer = [0u8; 1048578];
    for i in 1..1000 {
        let name = InlineText::<9>::of(format_args!("{i:03}.chain"));
        match fs::open(rt, name.as_str()) {
            Ok(mut opened) => replayed(rt, &mut opened, i, &mut buffer)?,
            Err(_) => break,
        }
    }
    Ok(())
}

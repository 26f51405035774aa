// Least-norm systems: m, n, a, b, and what the original leaves: rank, a, b, x.
ghost use Rattle.std.specs.Prelude.{◌≡◌, ◌+◌, ◌*◌, ◌≤◌, ◌<◌, length};

use super::words;
use least_norm::LeastNorm;
use reading::read_full;
use std::io::Read;
use std::rt::Files;
use std::{fs, io};

// The values of out.
fn fill(stored: &[[u8; 8]], out: &mut [f64])
    requires { length out.old ≤ length stored.now }
{
    for (v, bytes) in out.iter_mut().zip(stored) {
        *v = words::f64_of(*bytes);
    }
}

// Whether the values are those that are stored.
fn are_stored(values: &[f64], stored: &[[u8; 8]]) -> bool
    requires { length values.now ≤ length stored.now }
{
    values
        .iter()
        .zip(stored)
        .all(|(v, bytes)| words::is_stored(*v, *bytes))
}

// Whether rank, a, b and x are those at the front of s.
fn is_answer(rank: usize, a: &[f64], b: &[f64], x: &[f64], s: &[u8]) -> bool
    requires { 1 + 8 * length a.now + 8 * length b.now + 8 * length x.now ≤ length s.now }
{
    let (stored, _) = s[1..].as_chunks::<8>();
    usize::from(s[0]) == rank
        && are_stored(a, stored)
        && are_stored(b, &stored[a.len()..])
        && are_stored(x, &stored[a.len() + b.len()..])
}

// Whether the system at the front of s, of a's, b's and x's lengths, is answered as stored.
// The three stay apart, as `LeastNorm::solve` is lent them.
fn is_right(m: usize, n: usize, s: &[u8], a: &mut [f64], b: &mut [f64], x: &mut [f64]) -> bool
    requires { 1 + 16 * length a.old + 16 * length b.old + 8 * length x.old ≤ length s.now }
{
    let (stored, _) = s.as_chunks::<8>();
    fill(stored, a);
    fill(&stored[a.len()..], b);
    let at = 8 * (a.len() + b.len());
    let mut workspace = [0.0f64; 1056];
    match LeastNorm::solve(a, m, n, b, x, &mut workspace) {
        Err(_) => false,
        Ok(rank) => is_answer(rank, a, b, x, &s[at..]),
    }
}

// The same with m and n given.
// Fixed memory: nothing here allocates, and the front of each array is in use.
fn checked(m: usize, n: usize, s: &[u8]) -> bool
    requires { (m ≤ 32) × (n ≤ 32) × (1 + 16 * (m * n) + 16 * m + 8 * n ≤ length s.now) }
{
    let cells = m * n;
    let mut a = [0.0f64; 1024];
    let mut b = [0.0f64; 32];
    let mut x = [0.0f64; 32];
    is_right(m, n, s, &mut a[..cells], &mut b[..m], &mut x[..n])
}

// How many bytes a system takes after m and n.
fn size(m: usize, n: usize) -> usize
    requires { (m ≤ 32) × (n ≤ 32) }
    ensures { result ≡ 1 + 16 * (m * n) + 16 * m + 8 * n }
{
    1 + 16 * (m * n) + 16 * m + 8 * n
}

// Whether the next system of the file is answered as stored; it is not where it cannot be read.
fn next_is_right(file: &mut impl Read, buffer: &mut [u8]) -> bool {
    let mut head = [0u8; 2];
    let _ = read_full(file, &mut head);
    let m = usize::from(head[0]);
    let n = usize::from(head[1]);
    if m > 32 || n > 32 {
        return false;
    }
    let k = size(m, n);
    if buffer.len() < k {
        return false;
    }
    let (s, _) = read_full(file, &mut buffer[..k]);
    s.len() == k && checked(m, n, s)
}

fn differing(file: &mut impl Read, count: u32, buffer: &mut [u8]) -> usize {
    (0..count).filter(|_| !next_is_right(file, buffer)).count()
}

pub fn replay(rt: &(impl Files + Print)) -> io::Result<()> {
    let mut file = fs::open(rt, "least_norm.bin")?;
    let mut head = [0u8; 4];
    let _ = read_full(&mut file, &mut head);
    let count = u32::from_le_bytes(head);
    let mut buffer = [0u8; 65536];
    let sum = differing(&mut file, count, &mut buffer);
    words::report(rt, "least-norm systems: ", count as usize, sum)
}

// Square roots: records of two values, one and its root.
use super::words;
use std::rt::Files;
use std::{fs, io};

fn differs(record: &[[u8; 8]; 2]) -> bool {
    let [value, root] = *record;
    !words::is_stored(floats::sqrt(words::f64_of(value)), root)
}

// Fixed memory: nothing here allocates.
pub fn replay(rt: &(impl Files + Print)) -> io::Result<()> {
    let mut file = fs::open(rt, "sqrt.bin")?;
    let mut buffer = [0u8; 65536];
    let (bytes, _) = reading::read_full(&mut file, &mut buffer);
    let (values, _) = bytes.as_chunks::<8>();
    let (records, _) = values.as_chunks::<2>();
    let differing = records.iter().filter(|record| differs(record)).count();
    words::report(rt, "square roots: ", records.len(), differing)
}

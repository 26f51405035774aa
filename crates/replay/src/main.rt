// Replays the stored answers of the original, so that they are held against the port with no Rust at hand. data/README.md says how they were made.
#![tactic(auto)]

mod roots;
mod systems;
mod words;

use std::io;

fn main(rt: HostRuntime) -> io::Result<()> {
    roots::replay(&rt)?;
    systems::replay(&rt)
}

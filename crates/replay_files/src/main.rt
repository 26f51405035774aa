// Replays bend files with what bendsolve must print for each, and calls of the solver whose lengths no bend file has.
// data/README.md says how the files were made.
#![tactic(auto)]

mod files;
mod lengths;

use std::io;

fn main(rt: HostRuntime) -> io::Result<()> {
    files::replay(&rt)?;
    lengths::replay(&rt)
}

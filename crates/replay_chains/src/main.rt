// Replays chained bend files: what the reader answers for each of the files 001.chain, 002.chain and so on.
// data/README.md says how they were made; the file stdout has what must be written.
#![tactic(auto)]

mod replay;
mod sum;

use std::io;

fn main(rt: HostRuntime) -> io::Result<()> {
    replay::replay(&rt)
}

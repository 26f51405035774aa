// Runs the two calls that are lent structs, `tallied::solve_into` and `report::join_all`, beside the calls by value
// that give the same, on lists with refusals among them. The functions that lend a struct are the two of `lend`.
#![tactic(auto)]

mod joins;
mod lend;
mod same;
mod solves;

use std::io;

fn main(rt: HostRuntime) -> io::Result<()> {
    solves::replay(&rt)?;
    joins::replay(&rt)
}

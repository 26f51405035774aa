// Chained bend files for C and Rust, by plain numbers and slices: a slice passes as a pointer and then a length.
// include/piskorlu.h declares the calls. Each is total; one that cannot be taken answers its number and writes nothing.
#![tactic(auto)]

mod chain;
mod chain_writer;

pub use chain::{piskorlu_chain, piskorlu_chain_step};
pub use chain_writer::piskorlu_chain_write;

// The exports of capi_exact for C and Rust: a crate is a library or a static library, not both, so that each call of the
// library is exported here under its name, with its clauses. include/piskorlu.h declares the calls.
#![tactic(auto)]

mod exact;
mod exact_nearest;

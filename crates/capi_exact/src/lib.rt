// Exact row sums for C and Rust, by plain numbers and slices: a slice passes as a pointer and then a length.
// include/piskorlu.h declares the calls. Each is total; one that cannot be taken answers its number and writes nothing.
#![tactic(auto)]

mod exact;
mod exact_nearest;

pub use exact::{
    piskorlu_exact_free, piskorlu_exact_join, piskorlu_exact_product, piskorlu_exact_row,
    piskorlu_exact_sign,
};
pub use exact_nearest::piskorlu_exact_nearest;

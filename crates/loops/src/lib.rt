// Definitions and laws of loops, lists and places in a matrix, for the specifications and proofs of the other crates. No code.
#![tactic(auto)]

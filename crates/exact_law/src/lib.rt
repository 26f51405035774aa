// The order of exact sums: the claim is in specs/Law.antt, its theorem in proofs/Orders.antt. No code.
#![tactic(auto)]

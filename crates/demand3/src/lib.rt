// Demand 3: the claim is in specs/, its theorem in proofs/Theorem.antt. No code.
#![tactic(auto)]

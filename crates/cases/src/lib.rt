// Worked cases of the box solver, as tables that the checker computes. No code.
#![tactic(auto)]

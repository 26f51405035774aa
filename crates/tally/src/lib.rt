// The tallied solve: its definition is in specs/Tally.antt.
#![tactic(auto)]

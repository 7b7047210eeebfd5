// The row order over an abstract deterministic system: definitions and laws only.
#![tactic(auto)]

// Output and next of a state (definitions and laws; document 01, "States and rows").
#![tactic(auto)]

// Two policies as a system: the search's answer, the row rules and the trace checker's answer (definitions and laws only).
#![tactic(auto)]

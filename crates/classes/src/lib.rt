// Classes of the values of each field: what a verdict over classes says of declared packets (definitions and laws only; document 02, A.6).
#![tactic(auto)]

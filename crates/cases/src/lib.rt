// Document 01's pairs P1 to P11: the table, and the theorem that the definitions give what it states.
#![tactic(auto)]

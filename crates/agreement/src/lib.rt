// Laws that tie the search to the two checkers; they have no code of their own.
#![tactic(auto)]

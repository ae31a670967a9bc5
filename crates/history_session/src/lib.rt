// Definitions and laws only: a session of the program `terms` as a list of calls of demand 3.
#![tactic(auto)]

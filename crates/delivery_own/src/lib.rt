// Definitions and laws only: what `deliver` prints, read back and compared with the tables of the same notices.
#![tactic(auto)]

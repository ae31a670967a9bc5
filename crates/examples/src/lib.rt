// Definitions and proofs only: the worked examples marked P.
#![tactic(auto)]

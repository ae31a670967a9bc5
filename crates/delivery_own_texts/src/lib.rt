// Definitions and laws only: what `reconcile` writes and tells where its input is what `deliver` prints.
#![tactic(auto)]

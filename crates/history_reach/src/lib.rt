// Definitions and laws only: what one closure of a day can reach.
#![tactic(auto)]

// Definitions and laws only: what `decompose` prints of a file, read again as `compose` reads a text.
#![tactic(auto)]

// Documents 01 and 02 as definitions (`specs`), which a reader must believe, and their cases, computed (`proofs`). No code.
#![tactic(auto)]

// Demands 1, 2 and 3 (document 00), and the lists of sessions that demand 3 is about: this crate has definitions (`specs/`) and proofs (`proofs/`), and no code.
#![tactic(auto)]

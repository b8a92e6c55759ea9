// The store for C, without its functions: what the lent arrays are as a world, the contracts of the functions, demand 3 (document 00) of any sessions made
// with them, and that it leaves no list of events out. This crate has definitions (`specs/`) and proofs (`proofs/`), and no code.
#![tactic(auto)]

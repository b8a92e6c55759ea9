// The calls of an open store, without the functions that carry them out: the definitions of what a call checks, adds, gives back and leaves
// (`specs/`), and the theorem that every call of any world is as its contract says (`proofs/Post`). It stands apart from crate `calls` so that a wrong
// definition is refused in seconds, with no code to be proved.
#![tactic(auto)]

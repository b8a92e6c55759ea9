// Worked examples that are long to compute: a full log that is read, whole openings over stores of full size, and pages redone alone by logs of full size.
// No code. The others are in crate `book`.
#![tactic(auto)]

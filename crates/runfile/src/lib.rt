// Run files: the file checked whole, its calls made through the public calls of the store, and their answers as lines.
#![tactic(auto)]

pub mod run; // the file's sessions from the first line to the last

// The reader of run files: which bytes are one, and what its entries and calls are.
#![tactic(auto)]

pub mod file;

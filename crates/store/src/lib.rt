// The three public calls over the lent scope table: each loads it, has its core work on it by value, and stores it again.
// What goes through a `&mut [Scope]` is here; all else is in the cores.
#![tactic(auto)]

pub mod bridges; // the calls with the table by value
pub mod public; // the calls
pub mod table; // load, store

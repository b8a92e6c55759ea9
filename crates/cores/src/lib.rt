// The public calls with the scope table by value: state and table go over into the arrays that a call works on in place, and back. What goes through the
// lent table is in crate `store`.
#![tactic(auto)]

pub mod call; // the calls of an open store
pub mod crossing; // the scope table and the visits between their structs and their flat forms
pub mod opening; // format and open
pub mod outs; // what the cores give back
pub mod ram; // the state between its struct and what a call works on

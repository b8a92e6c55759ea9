// The calls of an open store as functions on lent arrays: checks, the rows that a call adds, and what it leaves. Each is proved to equal its definition in
// crate `calls_model`, which has what they mean.
#![tactic(auto)]

pub mod accept; // a call that no check refuses
mod act; // the work of an accepted call
pub mod check; // every check but that of the lengths
mod refuse; // document 01's table of refusals

// The tables of an open store, kept by functions: the active visits and the scope table in their flat forms, arrays of numbers, worked on in place. Each
// function is proved to equal its definition in crate `tables_model`, which has what they mean: so no call and no check of a row looks at the log for
// visits, holders, scopes or the reserve. Their loops count in 32 bits, as many as a register of the unit's processor has, and not in the 64 of `usize`.
#![tactic(auto)]

pub mod entries; // the flat scope table, entry by entry
pub mod layout; // where each number stands in the flat forms
pub mod lookup; // what is found in the scope table
pub mod rules; // the row rules by the tables
pub mod scopes; // one entry: its tests, and what a row makes of it
pub mod steps; // both tables after a row
pub mod updates; // the scope table after a row
pub mod visits; // the active visits, place by place

// Rows are written to journal and copy, looked up, and taken back, and the arrays of RAM are cleared: what the calls and an opening share.
#![tactic(auto)]

pub mod look; // a row, and the change before another in its scope, looked up in log and tail
pub mod ram; // its arrays, and clearing them: after a power failure, of a rejected store and of a new one
pub mod take_back; // open changes fall, highest row first
pub mod write; // a row goes to the journal and to the copy

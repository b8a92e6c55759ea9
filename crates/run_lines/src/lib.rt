// The output lines of a run: session, call, refusal number, value, rows and pages, as text in a lent buffer.
#![tactic(auto)]

pub mod line;

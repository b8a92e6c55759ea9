// What the store keeps in RAM, what its calls take and what they give back. In the public calls the state goes in and out by value; the log, the charts, the
// copy and the scope table are lent. Definitions over these types say what a book comes to in them, and what each call promises (`specs/`).
#![tactic(auto)]

pub mod answers; // what a call gives back
pub mod ram; // the state
pub mod requests; // what is asked of an open store

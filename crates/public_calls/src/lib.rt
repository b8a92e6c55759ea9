// The public calls of crate `store` as an exported function on arrays of numbers, for the comparison. Any numbers are some state and some scope table: these are made of them, the table is
// lent to the public function as a `&mut [Scope]`, and both are written back.
#![tactic(auto)]

mod asked; // what is asked for, in numbers
mod entries; // a scope table in numbers
mod lent; // the public calls with a table of as many entries as there are numbers for
mod packed; // the answer in one number
mod ram; // the state in numbers

use asked::asked_by;
use lent::ask;
use packed::packed;
use ram::{HEAD_LENGTH, head_of, state_in, visits_of};
use rows::limits::TAIL_LENGTH;
use tables::layout::VISITS_LENGTH;

// Rows, then pages.
const COUNTS: usize = 2;

// Format, open and call in one: what the code names, with those of the arguments that it takes. The counts are those of this call.
#[unsafe(no_mangle)]
pub extern "C" fn public_call_on(
    head: &mut [u64; HEAD_LENGTH],
    visits: &mut [u16; VISITS_LENGTH],
    tail: &mut [u8; TAIL_LENGTH],
    counts: &mut [u64; COUNTS],
    scopes: &mut [u16],
    copy: &mut [u8],
    log: &mut [u8],
    charts: &mut [u8],
    cells: &[i32],
    code: u8,
    visit: u16,
    receiver: u16,
    cell: u8,
    amount: i16,
    limited: u8,
    writes: u32,
) -> u64 {
    let state = state_in(*head, *visits, *tail);
    let asked = asked_by(code, visit, receiver, cell, amount, limited, writes);
    let reply = ask(state, log, charts, copy, scopes, cells, asked);
    *head = head_of(reply.state);
    *visits = visits_of(reply.state);
    tail.copy_from_slice(&reply.state.tail);
    *counts = [reply.writes.rows as u64, reply.writes.pages as u64];
    packed(reply.answer)
}

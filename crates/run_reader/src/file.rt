// The reader of run files (document 01, "The run file"): which bytes are one, and the entries and calls in it.
// Lengths are tested before what lies in them, so no byte beyond the end is read, whatever the file.
ghost use Rattle.std.specs.Prelude.{◌≡◌, ◌+◌, ◌*◌, ◌≤◌, length, get_or};
ghost use Rattle.book.specs.Numbers.{number, signed};
ghost use Rattle.state.specs.World.{allowance};
ghost use Rattle.state.specs.Requests.{call_of};
ghost use Rattle.run_reader.specs.Fields.{unused_zero};
ghost use Rattle.run_reader.specs.File.{entry_length, call_length, call_of_code, visit_at, receiver_at, call_at, is_call_at, are_calls, session_entry_at, fuse_at, start_at, calls_at, are_bodies, is_run_file};

use rows::numbers::{read16, read32};
use rows::{Cell, Visit};
use state::ram::Fuse;
use state::requests::Request;

// Sizes in bytes.
pub const FILE_LIMIT: usize = 4096;

pub const ENTRY_LENGTH: usize = 8;

pub const CALL_LENGTH: usize = 8;

const SESSION_LIMIT: usize = 32;

// The fuse of entry i.
pub fn fuse_at(file: &[u8], i: usize) -> Fuse
    requires { session_entry_at i + entry_length ≤ length file.now }
    ensures { allowance result ≡ fuse_at file.now i }
{
    Fuse::from(read32(file, 1 + ENTRY_LENGTH * i))
}

// Where entry i says that its body starts.
fn start_at(file: &[u8], i: usize) -> usize
    requires { session_entry_at i + entry_length ≤ length file.now }
    ensures { result ≡ start_at file.now i }
{
    usize::from(read16(file, 1 + ENTRY_LENGTH * i + 4))
}

// The number of calls of entry i.
pub fn calls_at(file: &[u8], i: usize) -> usize
    requires { session_entry_at i + entry_length ≤ length file.now }
    ensures { result ≡ calls_at file.now i }
{
    usize::from(read16(file, 1 + ENTRY_LENGTH * i + 6))
}

// The fields of a call's 8 bytes. Visit and receiver have their high bytes last.
#[derive(Clone, Copy)]
struct Fields {
    code: u8,
    visit: u16,
    receiver: u16,
    cell: u8, // or the page
    change: u16,
}

impl Fields {
    fn read(file: &[u8], at: usize) -> Fields
        requires { at + call_length ≤ length file.now }
        ensures code { result.code ≡ get_or file.now at 0 }
        ensures visit { result.visit ≡ visit_at file.now at }
        ensures receiver { result.receiver ≡ receiver_at file.now at }
        ensures cell { result.cell ≡ get_or file.now (at + 3) 0 }
        ensures change { result.change ≡ number 2 file.now (at + 4) }
    {
        Fields {
            code: file[at],
            visit: u16::from_le_bytes([file[at + 1], file[at + 6]]),
            receiver: u16::from_le_bytes([file[at + 2], file[at + 7]]),
            cell: file[at + 3],
            change: read16(file, at + 4),
        }
    }

    // The call that the fields would be, by their code, whatever the others are.
    fn request(self) -> Request
        ensures { call_of result ≡ call_of_code self.code self.visit self.receiver self.cell (signed 16 self.change) }
    {
        let visit = Visit(self.visit);
        let receiver = Visit(self.receiver);
        let cell = Cell(self.cell);
        match self.code {
            0 | 1 => Request::Begin,
            2 => Request::Change(visit, cell, self.change.cast_signed()),
            3 => Request::HandOver(visit, receiver, cell),
            4 => Request::Commit(visit),
            5 => Request::Abort(visit),
            6 => Request::Flush(self.cell),
            7 => Request::Force,
            8 => Request::Read(cell),
            _ => Request::HandOverAll(visit, receiver),
        }
    }

    // They are those of a call: a known code, and zero where the code does not use a field.
    fn is_call(self) -> bool
        ensures { result ≡ unused_zero self.code self.visit self.receiver self.cell self.change }
    {
        match self.code {
            1 | 7 => self.visit == 0 && self.receiver == 0 && self.cell == 0 && self.change == 0,
            2 => self.receiver == 0,
            3 => self.change == 0,
            4 | 5 => self.receiver == 0 && self.cell == 0 && self.change == 0,
            6 | 8 => self.visit == 0 && self.receiver == 0 && self.change == 0,
            9 => self.cell == 0 && self.change == 0,
            _ => false,
        }
    }
}

// The call that the bytes from `at` on would be, by their code.
#[tactic(auto, unfolding(crate::specs::File::call_at))]
pub fn call_at(file: &[u8], at: usize) -> Request
    requires { at + call_length ≤ length file.now }
    ensures { call_of result ≡ call_at file.now at }
{
    Fields::read(file, at).request()
}

// The bytes from `at` on are a call.
#[tactic(auto, using(crate::proofs::CallBytes::call_here))]
fn is_call_at(file: &[u8], at: usize) -> bool
    requires { at + call_length ≤ length file.now }
    ensures { result ≡ is_call_at file.now at }
{
    Fields::read(file, at).is_call()
}

// n calls stand from `at` on.
#[tactic(auto, using(crate::proofs::Bodies::calls_step))]
fn are_calls(file: &[u8], at: usize, n: usize) -> bool
    requires { at + call_length * n ≤ length file.now }
    ensures { result ≡ are_calls n file.now at }
{
    for i in 0..n {
        if !is_call_at(file, at + CALL_LENGTH * i) {
            return false;
        }
    }
    true
}

// The bodies of the entries stand from the end of the entries on, without gaps, in order, to the end of the file.
#[tactic(auto, using(crate::proofs::Bodies::bodies_step))]
fn are_bodies(file: &[u8], sessions: usize) -> bool
    requires { session_entry_at sessions ≤ length file.now }
    ensures { result ≡ are_bodies sessions 0 (session_entry_at sessions) file.now }
{
    let mut at = 1 + ENTRY_LENGTH * sessions;
    for i in 0..sessions {
        if start_at(file, i) != at {
            return false;
        }
        let n = calls_at(file, i);
        if (file.len() - at) / CALL_LENGTH < n || !are_calls(file, at, n) {
            return false;
        }
        at += CALL_LENGTH * n;
    }
    at == file.len()
}

// The bytes are a run file.
#[tactic(auto, unfolding(crate::specs::File::is_run_file))]
pub fn is_run_file(file: &[u8]) -> bool
    ensures { result ≡ is_run_file file.now }
{
    let Some(&first) = file.first() else {
        return false;
    };
    let sessions = usize::from(first);
    file.len() <= FILE_LIMIT
        && (1..=SESSION_LIMIT).contains(&sessions)
        && 1 + ENTRY_LENGTH * sessions <= file.len()
        && are_bodies(file, sessions)
}

// What a call answers: what it has done, or the reason why it was refused. `specs/Answers` has the number and value of each case, by documents 01 and 02.
ghost use Rattle.std.specs.Prelude.{◌≡◌};
ghost use Rattle.state.specs.Answers.{number_and_value};

use crate::ram::State;
use rows::{Cell, Lsn, Visit};

// What a call that was done gives.
#[derive(Clone, Copy)]
pub enum Done {
    Nothing,
    Visit(Visit),
    Row(Lsn),
    Grams(i32),
    Wrote(u16), // the rows that an opening wrote
}

// Why a call was refused.
#[derive(Clone, Copy)]
pub enum Refusal {
    WrongLength,
    CellOutOfRange(Cell),
    WrongBytes(Lsn), // the first row of the log that is not allowed, and why
    BreaksRule(Lsn),
    OverLimit(Lsn),
    BadPage(u8),
    Closed, // the store was closed, or the power failed during the call and it is closed
    VisitsUsedUp,
    TooManyActive,
    NoRoom,
    NotActive,
    NoSuchCell,
    ScopesUsedUp,
    SameVisit,
    HoldsNone,
    NoSuchPage,
}

pub type Answer = Result<Done, Refusal>;

// The stored writes that a call landed, rows and pages.
#[derive(Clone, Copy, Default)]
pub struct Writes {
    pub rows: usize,
    pub pages: usize,
}

// What a call gives back.
#[derive(Clone, Copy)]
pub struct Reply {
    pub state: State,
    pub answer: Answer,
    pub writes: Writes,
}

// The refusal number, 0 where the call was done.
pub fn number_of(a: Answer) -> u8
    ensures { result ≡ (number_and_value a).number }
{
    match a {
        Ok(_) => 0,
        Err(Refusal::WrongLength) => 1,
        Err(Refusal::CellOutOfRange(_)) => 2,
        Err(Refusal::WrongBytes(_)) => 3,
        Err(Refusal::BreaksRule(_)) => 16,
        Err(Refusal::OverLimit(_)) => 17,
        Err(Refusal::BadPage(_)) => 4,
        Err(Refusal::Closed) => 5,
        Err(Refusal::VisitsUsedUp) => 6,
        Err(Refusal::TooManyActive) => 7,
        Err(Refusal::NoRoom) => 8,
        Err(Refusal::NotActive) => 9,
        Err(Refusal::NoSuchCell) => 10,
        Err(Refusal::ScopesUsedUp) => 11,
        Err(Refusal::SameVisit) => 12,
        Err(Refusal::HoldsNone) => 13,
        Err(Refusal::NoSuchPage) => 14,
    }
}

// Document 01's value, 0 where it names none.
pub fn value_of(a: Answer) -> i32
    ensures { result ≡ (number_and_value a).value }
{
    match a {
        Ok(Done::Nothing) => 0,
        Ok(Done::Visit(v)) => i32::from(v.0),
        Ok(Done::Row(n)) => i32::from(n.0),
        Ok(Done::Grams(z)) => z,
        Ok(Done::Wrote(n)) => i32::from(n),
        Err(Refusal::CellOutOfRange(c)) => i32::from(c.0),
        Err(Refusal::WrongBytes(n) | Refusal::BreaksRule(n) | Refusal::OverLimit(n)) => i32::from(
            n.0,
        ),
        Err(Refusal::BadPage(p)) => i32::from(p),
        Err(_) => 0,
    }
}

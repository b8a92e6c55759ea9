// Rows of the log (document 01, "The store"): the numbers of rows, visits and cells, what a row is, what its 16 bytes
// are read as, and what it does to the charts.
#![tactic(auto)]

pub mod effects;
pub mod limits;
pub mod numbers;
pub mod ranges;
pub mod reader;
mod table;
pub mod writer;

// A row's number, from 1.
#[derive(Clone, Copy, Default, PartialEq, Eq)]
pub struct Lsn(pub u16);

// A visit's number, from 1.
#[derive(Clone, Copy, Default, PartialEq, Eq)]
pub struct Visit(pub u16);

// A cell's number.
#[derive(Clone, Copy, Default, PartialEq, Eq)]
pub struct Cell(pub u8);

#[derive(Clone, Copy, PartialEq, Eq)]
pub enum Row {
    // the visit that begins
    Begin(Visit),
    // the visit, the cell, and what is added to it
    Change(Visit, Cell, i16),
    // giver, receiver, and the cell whose changes pass to the receiver
    HandOver(Visit, Visit, Cell),
    // the holder, the cell, the row undone, and its change as first logged
    Undo(Visit, Cell, Lsn, i16),
    Commit(Visit),
    Abort(Visit),
    // giver and receiver: all changes that the giver holds pass to the receiver
    HandOverAll(Visit, Visit),
}

// What 16 bytes are read as.
#[derive(Clone, Copy, PartialEq, Eq)]
pub enum Read {
    // a row whose bytes and fields are as 01's table has them
    Valid(Row),
    // 16 zeros
    Blank,
    // no row's bytes: kind, zero bytes or own number are wrong
    Malformed,
    // a row's bytes, with a visit, cell or undone row that is out of its range
    OutOfRange,
}

// What a row does to the charts.
#[derive(Clone, Copy, PartialEq, Eq)]
pub enum Effect {
    Nothing,
    Adds(Cell, i16),
    Subtracts(Cell, i16),
}

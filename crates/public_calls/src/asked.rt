// What is asked for, in numbers. A number that is not taken is not looked at.
use crate::ram::fuse_by;
use rows::{Cell, Visit};
use state::ram::Fuse;
use state::requests::Request;

#[derive(Clone, Copy)]
pub(crate) enum Asked {
    Format,
    Open(Fuse),
    Call(Request),
}

// The calls have the codes of run files, a format has 0, and every further code is an opening. A flush has its page where others have the cell.
pub(crate) fn asked_by(
    code: u8,
    visit: u16,
    receiver: u16,
    cell: u8,
    amount: i16,
    limited: u8,
    writes: u32,
) -> Asked {
    match code {
        0 => Asked::Format,
        1 => Asked::Call(Request::Begin),
        2 => Asked::Call(Request::Change(Visit(visit), Cell(cell), amount)),
        3 => Asked::Call(Request::HandOver(Visit(visit), Visit(receiver), Cell(cell))),
        4 => Asked::Call(Request::Commit(Visit(visit))),
        5 => Asked::Call(Request::Abort(Visit(visit))),
        6 => Asked::Call(Request::Flush(cell)),
        7 => Asked::Call(Request::Force),
        8 => Asked::Call(Request::Read(Cell(cell))),
        9 => Asked::Call(Request::HandOverAll(Visit(visit), Visit(receiver))),
        _ => Asked::Open(fuse_by(limited != 0, writes)),
    }
}

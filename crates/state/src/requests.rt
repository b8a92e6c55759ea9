// A call of an open store with its arguments.
ghost use Rattle.book.specs.Calls.{Typed};
ghost use Rattle.state.specs.Requests.{call_of};

use rows::{Cell, Visit};

#[derive(Clone, Copy)]
pub enum Request {
    Begin,
    Change(Visit, Cell, i16),
    HandOver(Visit, Visit, Cell), // giver, receiver, cell
    Commit(Visit),
    Abort(Visit),
    Force,
    Flush(u8),
    Read(Cell),
    HandOverAll(Visit, Visit), // giver, receiver
}

// The amount of a change is a signed 16-bit number, as its type says: for proofs, which learn it by looking into the request.
pub fn is_typed(request: Request)
    ensures { Typed (call_of request) }
{
    // The name of the amount has its proof look there.
    if let Request::Change(_, _, _amount) = request {}
}

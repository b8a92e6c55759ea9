// The reader of a row: its 16 bytes, lent as a part of the log, as what they are. The tests of the bytes come first,
// then those of the ranges.
ghost use Rattle.std.specs.Prelude.{◌≡◌, length};
ghost use Rattle.book.specs.Numbers.{number, signed};
ghost use Rattle.book.specs.RowBytes.{is_row_bytes, pair, row_of};
ghost use Rattle.book.specs.Limits.{row_length};
ghost use Rattle.rows.specs.Meaning.{coded};
ghost use Rattle.rows.specs.Reading.{is_blank, read_of};

use crate::limits::KIND_LIMIT;
use crate::numbers::read16;
use crate::ranges::in_range;
use crate::table::is_as_table;
use crate::{Cell, Lsn, Read, Row, Visit};

// All 16 bytes are zero.
pub fn is_blank(b: &[u8]) -> bool
    requires { length b.now ≡ row_length }
    ensures { result ≡ is_blank b.now }
{
    is_as_table(b, 0)
}

// The bytes are those of a row n: a known kind, zero where the table says so, and the row's own number.
pub fn has_row_bytes(b: &[u8], n: Lsn) -> bool
    requires { length b.now ≡ row_length }
    ensures { result ≡ is_row_bytes n.0 b.now }
{
    let kind = usize::from(b[0]);
    (1..=KIND_LIMIT).contains(&kind) && is_as_table(b, kind) && Lsn(read16(b, 4)) == n
}

// The visit and the receiver, each by its low byte and its high one.
pub fn visit_in(b: &[u8]) -> Visit
    requires { length b.now ≡ row_length }
    ensures { result.0 ≡ pair b.now 1 10 }
{
    Visit(u16::from_le_bytes([b[1], b[10]]))
}

fn receiver_in(b: &[u8]) -> Visit
    requires { length b.now ≡ row_length }
    ensures { result.0 ≡ pair b.now 2 11 }
{
    Visit(u16::from_le_bytes([b[2], b[11]]))
}

// The change, in two's complement.
fn change_in(b: &[u8]) -> i16
    requires { length b.now ≡ row_length }
    ensures { result ≡ signed 16 (number 2 b.now 8) }
{
    read16(b, 8).cast_signed()
}

// The row that the bytes would be, by their kind, whatever the others are.
pub fn row_in(b: &[u8]) -> Row
    requires { length b.now ≡ row_length }
    ensures { result ≡ coded (row_of b.now) }
{
    let visit = visit_in(b);
    let cell = Cell(b[3]);
    match b[0] {
        0 => Row::Begin(Visit(0)),
        1 => Row::Begin(visit),
        2 => Row::Change(visit, cell, change_in(b)),
        3 => Row::HandOver(visit, receiver_in(b), cell),
        4 => Row::Undo(visit, cell, Lsn(read16(b, 6)), change_in(b)),
        5 => Row::Commit(visit),
        6 => Row::Abort(visit),
        _ => Row::HandOverAll(visit, receiver_in(b)),
    }
}

// What the bytes of row n are. Most are a row's, so that test comes first.
pub fn read_row(b: &[u8], n: Lsn) -> Read
    requires { length b.now ≡ row_length }
    ensures { result ≡ read_of n.0 b.now }
{
    if has_row_bytes(b, n) {
        let row = row_in(b);
        if in_range(row) {
            Read::Valid(row)
        } else {
            Read::OutOfRange
        }
    } else if is_blank(b) {
        Read::Blank
    } else {
        Read::Malformed
    }
}

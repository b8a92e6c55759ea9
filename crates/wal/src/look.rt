// A row, and the change before another in its scope, looked up where they stand: in the log or in the tail, each a part of the journal.
ghost use Rattle.std.specs.Prelude.{◌≡◌, ◌≤◌, eqb, length, IfSome};
ghost use Rattle.book.specs.RowBytes.{pair, row_of};
ghost use Rattle.book.specs.Limits.{row_length};
ghost use Rattle.journal.specs.Force.{Sizes};
ghost use Rattle.journal.specs.Journal.{journal};
ghost use Rattle.rows.specs.Meaning.{coded};
ghost use Rattle.tables_model.specs.Entries.{scope_in};
ghost use Rattle.tables_model.specs.Lookup.{is_change_by, before_last};
ghost use Rattle.wal.specs.Looking.{row_of_part, look_up, row_or_0, Part};

use journal::Control;
use rows::limits::ROW_LENGTH;
use rows::reader::{row_in, visit_in};
use rows::{Cell, Lsn, Row, Visit};
use tables_model::Scope;

// Row n of a part of the journal: bytes that hold `rows` rows, the first of them row `base` + 1. Of no such row any will do.
pub fn row_of_part(b: &[u8], base: usize, rows: usize, n: usize) -> Row
    requires { Part (length b.now) base rows }
    ensures { result ≡ coded (row_of_part b.now base rows n) }
{
    if n <= base || base + rows < n {
        return Row::Begin(Visit(0));
    }
    let at = ROW_LENGTH * (n - base - 1);
    row_in(&b[at..at + ROW_LENGTH])
}

// Row n, counted from 1.
pub fn row_at(c: Control, log: &[u8], tail: &[u8], n: usize) -> Row
    requires { Sizes c (length log.now) (length tail.now) }
    ensures { result ≡ coded (look_up (journal c log.now tail.now) n) }
{
    if n <= c.stored {
        row_of_part(log, 0, c.stored, n)
    } else {
        row_of_part(tail, c.stored, c.waiting, n)
    }
}

// The visit of the row in these 16 bytes is the maker.
fn is_made_by(b: &[u8], maker: Visit) -> bool
    requires { length b.now ≡ row_length }
    ensures { result ≡ eqb (pair b.now 1 10) maker.0 }
{
    visit_in(b) == maker
}

// The 16 bytes are a change of the cell by the maker: cell, visit and kind alone are looked at, the cell first, since it rules most rows out.
fn is_change_by(b: &[u8], maker: Visit, cell: Cell) -> bool
    requires { length b.now ≡ row_length }
    ensures { result ≡ is_change_by maker.0 cell.0 (row_of b.now) }
{
    b[3] == cell.0 && is_made_by(b, maker) && b[0] == 2
}

// The change before the scope's last one in a part of the journal: the highest row below `last` and not below `first` that is a change of the cell by the maker.
// No other row is looked at: the search, downwards, begins and stops within the part, and counts in 32 bits, as the loops of `tables` do.
pub fn before_last_in(b: &[u8], base: usize, rows: usize, s: Scope) -> Option<Lsn>
    requires { Part (length b.now) base rows }
    ensures { (row_or_0 result ≡ before_last (row_of_part b.now base rows) (scope_in s))
        × (row_or_0 result ≤ s.last.0) × IfSome result (λ n. 1 ≤ n.0) }
{
    let lowest = u32::from(s.first.0).max(base as u32 + 1);
    let above = u32::from(s.last.0).min((base + rows) as u32 + 1);
    for n in (lowest..above).rev() {
        let at = ROW_LENGTH * (n as usize - base - 1);
        if is_change_by(&b[at..at + ROW_LENGTH], s.maker, s.cell) {
            return Some(Lsn(n as u16));
        }
    }
    None
}

// The change before the scope's last one: it waits in the tail, or else stands in the log.
pub fn before_last(c: Control, log: &[u8], tail: &[u8], s: Scope) -> Option<Lsn>
    requires { Sizes c (length log.now) (length tail.now) }
    ensures { (row_or_0 result ≡ before_last (look_up (journal c log.now tail.now)) (scope_in s))
        × (row_or_0 result ≤ s.last.0) × IfSome result (λ n. 1 ≤ n.0) }
{
    match before_last_in(tail, c.stored, c.waiting, s) {
        Some(n) => Some(n),
        None => before_last_in(log, 0, c.stored, s),
    }
}

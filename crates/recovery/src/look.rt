// Rows of the log that is checked are looked up: the row that an undo row names, and the change before that one in its scope.
ghost use Rattle.std.specs.Prelude.{◌≡◌, ◌≤◌, ℕ, List, length, IfSome};
ghost use Rattle.book.specs.Rows.{undone_by};
ghost use Rattle.rows.specs.Meaning.{meant, coded};
ghost use Rattle.tables_model.specs.declared.Whom.TheVariants.{One};
ghost use Rattle.tables_model.specs.Entries.{Sized};
ghost use Rattle.tables_model.specs.Layout.{entries};
ghost use Rattle.tables_model.specs.Table.{Reaches};
ghost use Rattle.tables_model.specs.Rows.{index};
ghost use Rattle.tables_model.specs.Lookup.{before_found, before_highest, before_undone};
ghost use Rattle.wal.specs.Looking.{row_bytes_at, row_or_0};
ghost use Rattle.recovery_model.specs.Scan.{row_in};
ghost use Rattle.recovery_model.specs.Checking.{Rows, Next};

use rows::limits::ROW_LENGTH;
use rows::{Lsn, Row, Visit};
use tables::entries::entry_at;
use tables::lookup::highest;
use tables_model::{Counts, Whom};
use wal::look::{before_last_in, row_of_part};

// The 16 bytes of row k, counted from 0.
pub(crate) fn row_bytes(log: &[u8], k: usize) -> &[u8]
    requires { Next (length log.now) k }
    ensures { result.now ≡ row_bytes_at log.now k }
{
    let at = ROW_LENGTH * k;
    &log[at..at + ROW_LENGTH]
}

// The change before the last one of the entry found in its scope, among the first k rows of the log.
fn before_found(log: &[u8], k: usize, scopes: &[u16], found: Option<usize>) -> Option<Lsn>
    requires rows { Rows (length log.now) k }
    requires reaches { Reaches (length scopes.now) found }
    ensures { (row_or_0 result ≡ before_found (row_in log.now k) found (entries scopes.now)) × IfSome result (λ n. 1 ≤ n.0) }
{
    let s = entry_at(scopes, found?);
    before_last_in(log, 0, k, s)
}

// That of the visit's highest open change, whatever visits the table lists.
fn before_highest(log: &[u8], k: usize, t: Counts, scopes: &[u16], h: Visit) -> Option<Lsn>
    requires rows { Rows (length log.now) k }
    requires sized { Sized (length scopes.now) t.used }
    ensures { ((visits : List ℕ) → row_or_0 result ≡ before_highest (row_in log.now k) (One h) (index t visits scopes.now))
        × IfSome result (λ n. 1 ≤ n.0) }
{
    let found = highest(scopes, t.used, Whom::One(h));
    before_found(log, k, scopes, found)
}

// What the tables need besides the row: of an undo row the change before the one undone in its scope.
pub fn before_undone(log: &[u8], k: usize, t: Counts, scopes: &[u16], row: Row) -> Option<Lsn>
    requires rows { Rows (length log.now) k }
    requires sized { Sized (length scopes.now) t.used }
    ensures { ((visits : List ℕ) → row_or_0 result ≡ before_undone (row_in log.now k) (index t visits scopes.now) (meant row))
        × IfSome result (λ n. 1 ≤ n.0) }
{
    match row {
        Row::Undo(h, _, _, _) => before_highest(log, k, t, scopes, h),
        _ => None,
    }
}

// The row that this one undoes, among the first k; of no such row any will do.
pub fn named_by(log: &[u8], k: usize, row: Row) -> Row
    requires { Rows (length log.now) k }
    ensures { result ≡ coded (row_in log.now k (undone_by (meant row))) }
{
    match row {
        Row::Undo(_, _, n, _) => row_of_part(log, 0, k, usize::from(n.0)),
        _ => Row::Begin(Visit(0)),
    }
}

// Format and the opening, without the functions that carry them out: the types, the definitions of what they check, give back and leave (`specs/`), and
// the theorems that a format is the contract's (`proofs/Formats`), an opening of any bytes the book's (`proofs/Post`), and its forward part the pages redone
// alone in any order (`proofs/ForwardByPages`). It stands apart from crate `recovery` so that a wrong definition is refused in seconds, with no code to be
// proved.
#![tactic(auto)]

ghost use Rattle.std.specs.Prelude.{◌≡◌, ◌≤◌};
ghost use Rattle.book.specs.Limits.{row_limit};
ghost use Rattle.tables_model.specs.Visits.{InRange};

use rows::Lsn;
use tables_model::Counts;

// Why a row of a log is not allowed: its bytes are no row's, a row rule forbids it, or a limit does.
#[derive(Clone, Copy)]
pub enum Reason {
    Bytes,
    Rule,
    Limit,
}

// A row that is not allowed.
#[derive(Clone, Copy)]
pub struct BadRow {
    pub row: Lsn,
    pub reason: Reason,
}

// What the check of a log found: so many rows, at most those that a log has; the counters of the tables after them, within the tables; and the first bad
// row, if there is one.
#[derive(Clone, Copy)]
pub struct LogScan {
    pub rows: usize,
    pub counts: Counts,
    pub bad: Option<BadRow>,
    ghost few: { rows ≤ row_limit },
    ghost range: { InRange counts.count counts.used },
}
